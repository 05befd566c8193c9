//! Statements on the table of floors.
ghost use Rattle.std.specs.Prelude.{◌≡◌, IfOk, OnOk};
ghost use Rattle.sqlite.specs.State.{Survives};
ghost use Rattle.sqlite.specs.Held.{state};
ghost use Rattle.keeper_statements.specs.Changes.{with_floor};
ghost use Rattle.keeper_statements.specs.Steps.{MayMake, MayStay};
ghost use Rattle.sqlite.specs.State.{HasCleanDisk};
ghost use Rattle.std.specs.List.{list_any};
ghost use Rattle.keeper_statements.specs.Tables.{tables_in, IsReady};
ghost use Rattle.keeper_statements.specs.Tests.{is_above};

use sqlite::types::ValueRef;
use sqlite::{Alter, Error, Transaction};

/// Sets the floor of a job.
pub fn put_floor<S: Alter>(
    tx: &mut Transaction<'_, S>,
    job: &[u8],
    floor: i64,
) -> Result<usize, Error>
    ensures same_reference { tx.new.conn.ghost_name ≡ tx.old.conn.ghost_name }
    ensures made { MayMake (with_floor job.now floor) (state S.Store tx.old.conn.now)
        (state S.Store tx.new.conn.now) result }
    ensures stays { MayStay (state S.Store tx.old.conn.now) (state S.Store tx.new.conn.now) result }
    ensures survives { Survives (state S.Store tx.old.conn.now) (state S.Store tx.new.conn.now) (λ _. ⊥) }
{
    tx.execute(
        "INSERT OR REPLACE INTO floors (job, floor) VALUES (?1, ?2)",
        &[ValueRef::Text(job), ValueRef::Int(floor)],
    )
}

/// Whether the job has a floor above this number. Nothing changes.
pub fn has_floor_above<S: Alter>(
    tx: &mut Transaction<'_, S>,
    job: &[u8],
    number: i64,
) -> Result<bool, Error>
    ensures same_reference { tx.new.conn.ghost_name ≡ tx.old.conn.ghost_name }
    ensures answer { HasCleanDisk (state S.Store tx.new.conn.now) → IsReady (state S.Store tx.old.conn.now).now →
        IfOk result (λ above. above ≡ list_any (is_above job.now number)
        (tables_in (state S.Store tx.old.conn.now).now).floors) }
    ensures same { HasCleanDisk (state S.Store tx.new.conn.now) → IsReady (state S.Store tx.old.conn.now).now →
        OnOk result ((state S.Store tx.new.conn.now).now ≡ (state S.Store tx.old.conn.now).now) }
    ensures stays { MayStay (state S.Store tx.old.conn.now) (state S.Store tx.new.conn.now) result }
    ensures survives { Survives (state S.Store tx.old.conn.now) (state S.Store tx.new.conn.now) (λ _. ⊥) }
{
    let found = tx.query_all(
        "SELECT rowid FROM floors WHERE job = ?1 AND floor > ?2",
        &[ValueRef::Text(job), ValueRef::Int(number)],
    )?;
    Ok(!found.as_slice().is_empty())
}
