//! Statements on the table of kept replies.
ghost use Rattle.std.specs.Prelude.{◌≡◌};
ghost use Rattle.sqlite.specs.State.{Survives};
ghost use Rattle.sqlite.specs.Held.{state};
ghost use Rattle.keeper_statements.specs.Changes.{with_reply, without_below};
ghost use Rattle.keeper_statements.specs.Steps.{MayMake, MayStay};

use sqlite::types::ValueRef;
use sqlite::{Alter, Error, Transaction};

/// Adds the row of a reply. The database refuses it where a reply is kept under the job and the number, or at the
/// place.
pub fn add_reply<'x, S: Alter>(
    tx: &mut Transaction<'_, S>,
    job: &'x [u8],
    number: i64,
    place: i64,
    request: &'x [u8],
    reply: &'x [u8],
) -> Result<usize, Error>
    ensures same_reference { tx.new.conn.ghost_name ≡ tx.old.conn.ghost_name }
    ensures made { MayMake (with_reply job.now number place request.now reply.now) (state S.Store tx.old.conn.now)
        (state S.Store tx.new.conn.now) result }
    ensures stays { MayStay (state S.Store tx.old.conn.now) (state S.Store tx.new.conn.now) result }
    ensures survives { Survives (state S.Store tx.old.conn.now) (state S.Store tx.new.conn.now) (λ _. ⊥) }
{
    tx.execute(
        "INSERT INTO replies (job, number, place, request, reply) VALUES (?1, ?2, ?3, ?4, ?5)",
        &[
            ValueRef::Text(job),
            ValueRef::Int(number),
            ValueRef::Int(place),
            ValueRef::Blob(request),
            ValueRef::Blob(reply),
        ],
    )
}

/// Drops the replies of the job whose numbers are below the floor.
pub fn drop_replies_below<S: Alter>(
    tx: &mut Transaction<'_, S>,
    job: &[u8],
    floor: i64,
) -> Result<usize, Error>
    ensures same_reference { tx.new.conn.ghost_name ≡ tx.old.conn.ghost_name }
    ensures made { MayMake (without_below job.now floor) (state S.Store tx.old.conn.now)
        (state S.Store tx.new.conn.now) result }
    ensures stays { MayStay (state S.Store tx.old.conn.now) (state S.Store tx.new.conn.now) result }
    ensures survives { Survives (state S.Store tx.old.conn.now) (state S.Store tx.new.conn.now) (λ _. ⊥) }
{
    tx.execute(
        "DELETE FROM replies WHERE job = ?1 AND number < ?2",
        &[ValueRef::Text(job), ValueRef::Int(floor)],
    )
}
