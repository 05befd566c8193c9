//! The tests of rows that were found.
ghost use Rattle.std.specs.Prelude.{◌≡◌, ◌⊎◌, Option, Result, IfOk, IsErrOf};
ghost use Rattle.sms_construct.specs.Configuration.{Configuration};
ghost use Rattle.desk_records.specs.Tied.{IsSoundOpening};
ghost use Rattle.desk_law.specs.Decked.{IsDecked};
ghost use Rattle.desk_law.specs.State.{start_of};
ghost use Rattle.sms_open.specs.declared.rows_err.RowsErr.{RowsErr as RowsErrOf};
ghost use Rattle.desk_restoring.specs.Opened.{opening_of};
ghost use Rattle.sms_open.specs.Verdicts.{IsVerdict, IsVerdictUnder, answer_of, answer_with};

use crate::decks::{are_counted, last_config};
use crate::doubles::are_single;
use crate::replies::are_sound_replies;
use crate::rows_err::RowsErr;
use crate::sets::are_placed;
use crate::statuses::are_statuses_of;
use deck_meaning::Config;
use sms_keeper::Rows;
use std::alloc::{AllocError, Global};

// No memory has more decks.
const MOST_DECKS: usize = 9_223_372_036_854_775_807;

fn answer(number: u8, passed: Result<bool, AllocError>) -> Result<(), RowsErr>
    ensures { result ≡ answer_of number passed }
{
    match passed {
        Ok(true) => Ok(()),
        Ok(false) => Err(RowsErr::Unsound(number)),
        Err(_) => Err(RowsErr::NoMemory),
    }
}

// The last three tests.
fn judge_under(alloc: Global, rows: &Rows, active: &Option<Config>) -> Result<(), RowsErr>
    ensures { IsVerdictUnder rows.now active.now (answer_with active.now result) ⊎
        IsErrOf (answer_with active.now result) RowsErr.NoMemory }
{
    answer(4, are_statuses_of(alloc, active, rows.statuses.as_slice()))?;
    answer(5, are_placed(alloc, active, rows.sets.as_slice()))?;
    answer(6, are_sound_replies(alloc, rows))
}

// The verdict on the rows, or want of memory.
fn judge(alloc: Global, rows: &Rows) -> Result<Option<Config>, RowsErr>
    ensures { IsVerdict rows.now result ⊎ IsErrOf result RowsErr.NoMemory }
{
    answer(1, are_single(alloc, rows))?;
    answer(2, Ok(are_counted(rows)))?;
    let active = last_config(alloc, rows.decks.as_slice())?;
    match judge_under(alloc, rows, &active) {
        Ok(()) => Ok(active),
        Err(err) => Err(err),
    }
}

/// The configuration of the last deck, none without a deck, where the rows pass all six tests; and else the number of
/// the first that they don't pass (docs/manual/records.md, "Found rows"). Want of memory alone may come in place of
/// either. Rows that pass are an opening from which a desk may go on, its base at their greatest place.
pub fn test_rows(alloc: Global, rows: &Rows) -> Result<Option<Config>, RowsErr>
    ensures verdict { IsVerdict rows.now result ⊎ IsErrOf result RowsErr.NoMemory }
    ensures exactly { (verdict : Result (Option Configuration) RowsErrOf) → IsVerdict rows.now verdict →
        (result ≡ verdict) ⊎ IsErrOf result RowsErr.NoMemory }
    ensures opening { IfOk result (λ active. IsSoundOpening (opening_of rows.now active)) }
    ensures decked { IfOk result (λ active. IsDecked rows.now.decks (start_of (opening_of rows.now active))) }
{
    if rows.decks.len() > MOST_DECKS {
        return Err(RowsErr::NoMemory);
    }
    judge(alloc, rows)
}
