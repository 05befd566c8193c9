//! Statements on the table of statuses.
ghost use Rattle.std.specs.Prelude.{◌≡◌, IsTrue, IfOk};
ghost use Rattle.sqlite.specs.State.{Survives};
ghost use Rattle.sqlite.specs.Held.{state};
ghost use Rattle.keeper_statements.specs.Changes.{with_status, without_status, without_statuses};
ghost use Rattle.keeper_statements.specs.Steps.{MayMake, MayStay};
ghost use Rattle.sqlite.specs.State.{HasCleanDisk};
ghost use Rattle.keeper_statements.specs.Tables.{tables_in, IsReady};
ghost use Rattle.keeper_statements.specs.Tests.{HasFound, is_status};

use sqlite::types::ValueRef;
use sqlite::{Alter, Error, Transaction};

/// Drops all statuses.
pub fn clear_statuses<S: Alter>(tx: &mut Transaction<'_, S>) -> Result<usize, Error>
    ensures same_reference { tx.new.conn.ghost_name ≡ tx.old.conn.ghost_name }
    ensures made { MayMake without_statuses (state S.Store tx.old.conn.now) (state S.Store tx.new.conn.now) result }
    ensures stays { MayStay (state S.Store tx.old.conn.now) (state S.Store tx.new.conn.now) result }
    ensures survives { Survives (state S.Store tx.old.conn.now) (state S.Store tx.new.conn.now) (λ _. ⊥) }
{
    tx.execute("DELETE FROM statuses", &[])
}

/// Adds a status. The database refuses it where there is one of this kind and name.
pub fn add_status<S: Alter>(
    tx: &mut Transaction<'_, S>,
    kind: i64,
    name: &[u8],
    status: i64,
) -> Result<usize, Error>
    ensures same_reference { tx.new.conn.ghost_name ≡ tx.old.conn.ghost_name }
    ensures made { MayMake (with_status kind name.now status) (state S.Store tx.old.conn.now)
        (state S.Store tx.new.conn.now) result }
    ensures stays { MayStay (state S.Store tx.old.conn.now) (state S.Store tx.new.conn.now) result }
    ensures survives { Survives (state S.Store tx.old.conn.now) (state S.Store tx.new.conn.now) (λ _. ⊥) }
{
    tx.execute(
        "INSERT INTO statuses (kind, name, status) VALUES (?1, ?2, ?3)",
        &[
            ValueRef::Int(kind),
            ValueRef::Text(name),
            ValueRef::Int(status),
        ],
    )
}

/// Drops the status of this kind and name, and answers how many rows there were.
pub fn drop_status<S: Alter>(
    tx: &mut Transaction<'_, S>,
    kind: i64,
    name: &[u8],
) -> Result<usize, Error>
    ensures same_reference { tx.new.conn.ghost_name ≡ tx.old.conn.ghost_name }
    ensures made { MayMake (without_status kind name.now) (state S.Store tx.old.conn.now)
        (state S.Store tx.new.conn.now) result }
    ensures counted { HasCleanDisk (state S.Store tx.new.conn.now) →
        IsTrue (state S.Store tx.old.conn.now).in_transaction → IsReady (state S.Store tx.old.conn.now).now →
        IfOk result (λ count. HasFound (is_status kind name.now)
        (tables_in (state S.Store tx.old.conn.now).now).statuses count) }
    ensures stays { MayStay (state S.Store tx.old.conn.now) (state S.Store tx.new.conn.now) result }
    ensures survives { Survives (state S.Store tx.old.conn.now) (state S.Store tx.new.conn.now) (λ _. ⊥) }
{
    tx.execute(
        "DELETE FROM statuses WHERE kind = ?1 AND name = ?2",
        &[ValueRef::Int(kind), ValueRef::Text(name)],
    )
}
