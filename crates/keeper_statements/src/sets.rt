//! Statements on the table of data sets.
ghost use Rattle.std.specs.Prelude.{◌≡◌};
ghost use Rattle.sqlite.specs.State.{Survives};
ghost use Rattle.sqlite.specs.Held.{state};
ghost use Rattle.keeper_statements.specs.Changes.{with_set, without_set};
ghost use Rattle.keeper_statements.specs.Steps.{MayMake, MayStay};

use sqlite::types::ValueRef;
use sqlite::{Alter, Error, Transaction};

/// Puts the data set in place of the one of its name, or adds it.
pub fn put_set<'x, S: Alter>(
    tx: &mut Transaction<'_, S>,
    dsn: &'x [u8],
    bytes: &'x [u8],
) -> Result<usize, Error>
    ensures same_reference { tx.new.conn.ghost_name ≡ tx.old.conn.ghost_name }
    ensures made { MayMake (with_set dsn.now bytes.now) (state S.Store tx.old.conn.now)
        (state S.Store tx.new.conn.now) result }
    ensures stays { MayStay (state S.Store tx.old.conn.now) (state S.Store tx.new.conn.now) result }
    ensures survives { Survives (state S.Store tx.old.conn.now) (state S.Store tx.new.conn.now) (λ _. ⊥) }
{
    tx.execute(
        "INSERT OR REPLACE INTO sets (dsn, rec) VALUES (?1, ?2)",
        &[ValueRef::Text(dsn), ValueRef::Blob(bytes)],
    )
}

/// Drops the data set of this name, where there is one.
pub fn drop_set<S: Alter>(tx: &mut Transaction<'_, S>, dsn: &[u8]) -> Result<usize, Error>
    ensures same_reference { tx.new.conn.ghost_name ≡ tx.old.conn.ghost_name }
    ensures made { MayMake (without_set dsn.now) (state S.Store tx.old.conn.now)
        (state S.Store tx.new.conn.now) result }
    ensures stays { MayStay (state S.Store tx.old.conn.now) (state S.Store tx.new.conn.now) result }
    ensures survives { Survives (state S.Store tx.old.conn.now) (state S.Store tx.new.conn.now) (λ _. ⊥) }
{
    tx.execute("DELETE FROM sets WHERE dsn = ?1", &[ValueRef::Text(dsn)])
}
