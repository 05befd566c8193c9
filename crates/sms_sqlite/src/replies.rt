// The row of a change's reply.
ghost use Rattle.std.specs.Prelude.{◌≡◌, ◌++◌, ◌∷◌, []};
ghost use Rattle.sqlite.specs.Held.{state};
ghost use Rattle.sqlite.specs.State.{Survives};
ghost use Rattle.sms_keeper.specs.Tables.{row_of};
ghost use Rattle.keeper_statements.specs.Steps.{MayStay};
ghost use Rattle.sms_sqlite.specs.Writing.{MayLead, with_row};

use crate::numbers::{fits_column, in_column};
use keeper_statements::{add_reply, has_floor_above};
use sms_keeper::Change;
use sms_records::{reply_record, request_record};
use sqlite::{Alter, Error, Transaction};
use std::alloc::Global;

// Adds the row of the change's reply, unless its number is below the floor of its job.
pub fn keep_reply<S: Alter>(
    tx: &mut Transaction<'_, S>,
    alloc: Global,
    change: &Change,
) -> Result<(), Error>
    ensures same_reference { tx.new.conn.ghost_name ≡ tx.old.conn.ghost_name }
    ensures leads { MayLead (with_row change.now) (state S.Store tx.old.conn.now)
        (state S.Store tx.new.conn.now) result }
    ensures stays { MayStay (state S.Store tx.old.conn.now) (state S.Store tx.new.conn.now) result }
    ensures survives { Survives (state S.Store tx.old.conn.now) (state S.Store tx.new.conn.now) (λ _. ⊥) }
{
    let number = in_column(change.request.number.get());
    if has_floor_above(tx, change.request.job.bytes(), number)? {
        return Ok(());
    }
    add_row(tx, alloc, change)
}

// Adds the row of the change's reply.
fn add_row<S: Alter>(
    tx: &mut Transaction<'_, S>,
    alloc: Global,
    change: &Change,
) -> Result<(), Error>
    ensures same_reference { tx.new.conn.ghost_name ≡ tx.old.conn.ghost_name }
    ensures leads { MayLead (λ rows. record rows { replies = rows.replies ++ row_of change.now ∷ [] })
        (state S.Store tx.old.conn.now) (state S.Store tx.new.conn.now) result }
    ensures stays { MayStay (state S.Store tx.old.conn.now) (state S.Store tx.new.conn.now) result }
    ensures survives { Survives (state S.Store tx.old.conn.now) (state S.Store tx.new.conn.now) (λ _. ⊥) }
{
    let number = in_column(change.request.number.get());
    let Some(place) = fits_column(change.place) else {
        return Err(Error::IntegralValueOutOfRange(2));
    };
    let request = request_record(alloc, &change.request)?;
    let reply = reply_record(alloc, &change.reply)?;
    add_reply(
        tx,
        change.request.job.bytes(),
        number,
        place,
        &request,
        &reply,
    )?;
    Ok(())
}
