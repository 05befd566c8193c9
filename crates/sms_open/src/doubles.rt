//! What stands twice among rows: names, numbers and jobs, which test 1 asks, and places, which test 6 asks.
ghost use Rattle.std.specs.Prelude.{◌≡◌, ◌≤◌, ℕ, List, IfOk, map};
ghost use Rattle.desk_law.specs.KeptRows.{times_placed};
ghost use Rattle.desk_law.specs.Lawful.{times_named};
ghost use Rattle.sms_open.specs.Inner.Targets.{key_of_row};
ghost use Rattle.sms_open.specs.Tests.{AreSingle, times_floor, times_kept};
ghost use Rattle.sms_open.specs.Verdicts.{Tells};

use crate::apart::are_apart;
use desk_common::Shared;
use dsn_mask::{Dsn, Name};
use sms_construct::DataSet;
use sms_keeper::{Floor, KeptRow, RequestKey, Rows};
use std::alloc::{AllocError, Global};

fn names_of(alloc: Global, sets: &[Shared<DataSet>]) -> Result<Vec<Dsn>, AllocError>
    ensures { IfOk result (λ names. names.items ≡ map (λ set. set.dsn) sets.now) }
{
    sets.iter().map(|set| set.get().dsn).collect(alloc)
}

fn names_apart(alloc: Global, sets: &[Shared<DataSet>]) -> Result<bool, AllocError>
    ensures { IfOk result (Tells ((dsn : List ℕ) → times_named dsn sets.now ≤ 1)) }
{
    let names = names_of(alloc, sets)?;
    are_apart(alloc, &names)
}

fn keys_of(alloc: Global, replies: &[KeptRow]) -> Result<Vec<RequestKey>, AllocError>
    ensures { IfOk result (λ keys. keys.items ≡ map key_of_row replies.now) }
{
    let mut keys = Vec::with_capacity(alloc, replies.len())?;
    for row in replies {
        if keys.push(key_of(row)).is_err() {
            return Err(AllocError);
        }
    }
    Ok(keys)
}

fn numbers_apart(alloc: Global, replies: &[KeptRow]) -> Result<bool, AllocError>
    ensures { IfOk result (Tells ((job : List ℕ) (number : ℕ) → times_kept job number replies.now ≤ 1)) }
{
    let keys = keys_of(alloc, replies)?;
    are_apart(alloc, &keys)
}

fn key_of(row: &KeptRow) -> RequestKey
    ensures { result ≡ key_of_row row.now }
{
    RequestKey {
        job: row.job,
        number: row.number,
    }
}

fn jobs_of(alloc: Global, floors: &[Floor]) -> Result<Vec<Name>, AllocError>
    ensures { IfOk result (λ jobs. jobs.items ≡ map (λ floor. floor.job) floors.now) }
{
    floors.iter().map(|floor| floor.job).collect(alloc)
}

fn jobs_apart(alloc: Global, floors: &[Floor]) -> Result<bool, AllocError>
    ensures { IfOk result (Tells ((job : List ℕ) → times_floor job floors.now ≤ 1)) }
{
    let jobs = jobs_of(alloc, floors)?;
    are_apart(alloc, &jobs)
}

fn places_of(alloc: Global, replies: &[KeptRow]) -> Result<Vec<u64>, AllocError>
    ensures { IfOk result (λ places. places.items ≡ map (λ row. row.place) replies.now) }
{
    let mut places = Vec::with_capacity(alloc, replies.len())?;
    for row in replies {
        if places.push(row.place).is_err() {
            return Err(AllocError);
        }
    }
    Ok(places)
}

/// Whether no two replies have one place; or want of memory.
pub fn places_apart(alloc: Global, replies: &[KeptRow]) -> Result<bool, AllocError>
    ensures { IfOk result (Tells ((place : ℕ) → times_placed place replies.now ≤ 1)) }
{
    let places = places_of(alloc, replies)?;
    are_apart(alloc, &places)
}

/// Whether no two data sets have one name, no two replies one job and number, and no two floors one job; or want of
/// memory.
pub fn are_single(alloc: Global, rows: &Rows) -> Result<bool, AllocError>
    ensures { IfOk result (Tells (AreSingle rows.now)) }
{
    if !names_apart(alloc, rows.sets.as_slice())? {
        return Ok(false);
    }
    if !numbers_apart(alloc, rows.replies.as_slice())? {
        return Ok(false);
    }
    jobs_apart(alloc, rows.floors.as_slice())
}
