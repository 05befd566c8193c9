//! Numbers that a job may still use.
ghost use Rattle.std.specs.Prelude.{◌≡◌, ◌≤◌, ℕ, IfSome, None, find};
ghost use Rattle.desk_law.specs.Kept.{greatest_floor};
ghost use Rattle.sms_keeper.specs.Tables.{is_reply_of};
ghost use Rattle.store_calls.specs.Checked.{IsFreeFrom};
ghost use Rattle.store_calls.specs.Inner.Numbers.{floor_in, is_from};

use dsn_mask::Name;
use sms_keeper::{Floor, KeptRow, Rows};

/// A number from which on the job is free to ask; none where the greatest number has a kept reply.
pub fn first_free(job: &Name, rows: &Rows) -> Option<u32>
    ensures { IfSome result (IsFreeFrom job.now rows.now) }
{
    let floor = highest_floor(job, rows.floors.as_slice());
    behind_kept(job, rows.replies.as_slice(), at_least_one(floor))
}

fn at_least_one(number: u32) -> u32
    ensures one { 1 ≤ result }
    ensures number { number ≤ result }
{
    if number == 0 {
        return 1;
    }
    number
}

// A number that no floor of the job is above.
fn highest_floor(job: &Name, floors: &[Floor]) -> u32
    ensures { greatest_floor job.now floors.entry.now ≤ result }
{
    let mut highest = 0;
    let mut rest = floors;
    while let [row, others @ ..] = rest {
        let floor = floor_in(job, row);
        if floor > highest {
            highest = floor;
        }
        rest = others;
    }
    highest
}

// The floor of the row, where it is the job's.
fn floor_in(job: &Name, row: &Floor) -> u32
    ensures { result ≡ floor_in job.now row.now }
{
    if row.job == *job {
        return row.floor;
    }
    0
}

// A number from which on no reply of the job is kept, at least this one.
fn behind_kept(job: &Name, replies: &[KeptRow], least: u32) -> Option<u32>
    ensures least { IfSome result (λ first. least ≤ first) }
    ensures unkept { IfSome result (λ first. (n : ℕ) → first ≤ n →
        find (is_reply_of job.now n) replies.entry.now ≡ None) }
{
    let mut first = least;
    let mut rest = replies;
    while let [row, others @ ..] = rest {
        if is_from(job, row, first) {
            first = row.number.get().checked_add(1)?;
        }
        rest = others;
    }
    Some(first)
}

// Whether the row is the job's, and its number this one or a later.
fn is_from(job: &Name, row: &KeptRow, first: u32) -> bool
    ensures { result ≡ is_from job.now first row.now }
{
    row.job == *job && first <= row.number.get()
}
