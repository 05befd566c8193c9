// The statuses of storage groups and volumes.
ghost use Rattle.std.specs.Prelude.{◌≡◌, OnOk, Some, map, pos, true};
ghost use Rattle.std.specs.List.{list_all};
ghost use Rattle.sqlite.specs.Held.{state};
ghost use Rattle.sqlite.specs.State.{Survives};
ghost use Rattle.sms_keeper.specs.Loading.{target_name, target_rank};
ghost use Rattle.sms_keeper.specs.Suits.{has_status};
ghost use Rattle.sms_keeper.specs.Tables.{row_with};
ghost use Rattle.keeper_statements.specs.Changes.{with_status};
ghost use Rattle.keeper_statements.specs.Steps.{MayMake, MayStay};
ghost use Rattle.sms_sqlite.specs.Inner.Columns.{AreReadable, status_column, with_statuses};
ghost use Rattle.sms_sqlite.specs.Values.{target_of};
ghost use Rattle.sms_sqlite.specs.Writing.{MayLead};

use keeper_statements::{add_status, clear_statuses, drop_status};
use sms_construct::{Status, Target};
use sms_keeper::StatusRow;
use sqlite::{Alter, Error, Transaction};

// The kind and the name under which a status is kept: 0 for a storage group, 1 for a volume.
#[tactic(auto, using(crate::proofs::WriteLemmas::group_again, crate::proofs::WriteLemmas::volume_again))]
fn key_of(target: &Target) -> (i64, &[u8])
    requires { has_status target.now ≡ true }
    ensures kind { result.0 ≡ pos (target_rank target.now) }
    ensures name { result.1.now ≡ target_name target.now }
    ensures read { target_of (target_rank target.now) (target_name target.now) ≡ Some target.now }
{
    match target {
        Target::Group(group) => (0, group.bytes()),
        Target::Volume(volser) => (1, volser.bytes()),
        Target::Set(_) => unreachable!(),
    }
}

// The number of a status, in the order of the statuses, from 0.
fn number_of(status: Status) -> i64
    ensures { result ≡ pos (status_column status) }
{
    match status {
        Status::Enable => 0,
        Status::NotCon => 1,
        Status::DisAll => 2,
        Status::DisNew => 3,
        Status::QuiAll => 4,
        Status::QuiNew => 5,
    }
}

// Adds a status.
fn put_status<S: Alter>(
    tx: &mut Transaction<'_, S>,
    target: &Target,
    status: Status,
) -> Result<(), Error>
    requires { has_status target.now ≡ true }
    ensures same_reference { tx.new.conn.ghost_name ≡ tx.old.conn.ghost_name }
    ensures made { MayMake (with_status (pos (target_rank target.now)) (target_name target.now)
        (pos (status_column status))) (state S.Store tx.old.conn.now) (state S.Store tx.new.conn.now) result }
    ensures read { target_of (target_rank target.now) (target_name target.now) ≡ Some target.now }
    ensures stays { MayStay (state S.Store tx.old.conn.now) (state S.Store tx.new.conn.now) result }
    ensures survives { Survives (state S.Store tx.old.conn.now) (state S.Store tx.new.conn.now) (λ _. ⊥) }
{
    let (kind, name) = key_of(target);
    add_status(tx, kind, name, number_of(status))?;
    Ok(())
}

// Adds these statuses.
fn put_statuses<S: Alter>(tx: &mut Transaction<'_, S>, statuses: &[StatusRow]) -> Result<(), Error>
    requires { list_all (λ row. has_status row.target) statuses.now ≡ true }
    ensures same_reference { tx.new.conn.ghost_name ≡ tx.old.conn.ghost_name }
    ensures made { MayMake (with_statuses statuses.now) (state S.Store tx.old.conn.now)
        (state S.Store tx.new.conn.now) result }
    ensures read { OnOk result (AreReadable statuses.now) }
    ensures stays { MayStay (state S.Store tx.old.conn.now) (state S.Store tx.new.conn.now) result }
    ensures survives { Survives (state S.Store tx.old.conn.now) (state S.Store tx.new.conn.now) (λ _. ⊥) }
{
    for row in statuses {
        put_status(tx, &row.target, row.status)?;
    }
    Ok(())
}

// Puts these statuses in place of all others.
pub fn replace_statuses<S: Alter>(
    tx: &mut Transaction<'_, S>,
    statuses: &[StatusRow],
) -> Result<(), Error>
    requires { list_all (λ row. has_status row.target) statuses.now ≡ true }
    ensures same_reference { tx.new.conn.ghost_name ≡ tx.old.conn.ghost_name }
    ensures leads { MayLead (λ rows. record rows { statuses = statuses.now }) (state S.Store tx.old.conn.now)
        (state S.Store tx.new.conn.now) result }
    ensures stays { MayStay (state S.Store tx.old.conn.now) (state S.Store tx.new.conn.now) result }
    ensures survives { Survives (state S.Store tx.old.conn.now) (state S.Store tx.new.conn.now) (λ _. ⊥) }
{
    clear_statuses(tx)?;
    put_statuses(tx, statuses)
}

// Sets the status of a storage group or a volume that has one. More than one row of its key is no database of a desk,
// and is refused.
pub fn set_status<S: Alter>(
    tx: &mut Transaction<'_, S>,
    target: &Target,
    status: Status,
) -> Result<(), Error>
    requires { has_status target.now ≡ true }
    ensures same_reference { tx.new.conn.ghost_name ≡ tx.old.conn.ghost_name }
    ensures leads { MayLead (λ rows. record rows { statuses = map (row_with target.now status) rows.statuses })
        (state S.Store tx.old.conn.now) (state S.Store tx.new.conn.now) result }
    ensures stays { MayStay (state S.Store tx.old.conn.now) (state S.Store tx.new.conn.now) result }
    ensures survives { Survives (state S.Store tx.old.conn.now) (state S.Store tx.new.conn.now) (λ _. ⊥) }
{
    let (kind, name) = key_of(target);
    match drop_status(tx, kind, name)? {
        0 => Ok(()),
        1 => put_status(tx, target, status),
        _ => Err(Error::InvalidQuery),
    }
}
