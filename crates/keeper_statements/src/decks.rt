//! The statement on the table of decks.
ghost use Rattle.std.specs.Prelude.{◌≡◌, false, IsTrue, OnOk};
ghost use Rattle.sqlite.specs.State.{Survives};
ghost use Rattle.sqlite.specs.Held.{state};
ghost use Rattle.keeper_statements.specs.Changes.{with_deck};
ghost use Rattle.keeper_statements.specs.Steps.{MayMake, MayStay};
ghost use Rattle.sqlite.specs.State.{HasCleanDisk};
ghost use Rattle.sqlite.specs.Edit.{is_taken};
ghost use Rattle.keeper_statements.specs.Tables.{tables_in, IsReady};
ghost use Rattle.keeper_statements.specs.Tests.{deck_row};

use sqlite::types::ValueRef;
use sqlite::{Alter, Error, Transaction};

/// Adds a deck under its number. The database refuses it where a deck has the number.
pub fn add_deck<S: Alter>(
    tx: &mut Transaction<'_, S>,
    count: i64,
    bytes: &[u8],
) -> Result<usize, Error>
    ensures same_reference { tx.new.conn.ghost_name ≡ tx.old.conn.ghost_name }
    ensures made { MayMake (with_deck count bytes.now) (state S.Store tx.old.conn.now)
        (state S.Store tx.new.conn.now) result }
    ensures free { HasCleanDisk (state S.Store tx.new.conn.now) →
        IsTrue (state S.Store tx.old.conn.now).in_transaction → IsReady (state S.Store tx.old.conn.now).now →
        OnOk result (is_taken (tables_in (state S.Store tx.old.conn.now).now).decks (deck_row count bytes.now) ≡
        false) }
    ensures stays { MayStay (state S.Store tx.old.conn.now) (state S.Store tx.new.conn.now) result }
    ensures survives { Survives (state S.Store tx.old.conn.now) (state S.Store tx.new.conn.now) (λ _. ⊥) }
{
    tx.execute(
        "INSERT INTO decks (count, bytes) VALUES (?1, ?2)",
        &[ValueRef::Int(count), ValueRef::Blob(bytes)],
    )
}
