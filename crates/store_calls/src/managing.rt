//! A day of space management on a store.
ghost use Rattle.std.specs.Prelude.{◌≡◌, [], IfOk, IfSome, IsOkAnd, OnErr, true};
ghost use Rattle.desk_calls.specs.Headline.{seen_keeper};
ghost use Rattle.desk_records.specs.Tied.{IsSoundOpening};
ghost use Rattle.desk_restoring.specs.Opened.{opening_of};
ghost use Rattle.sms_keeper.specs.Loading.{AreLoaded};
ghost use Rattle.sms_manage.specs.Managed.{manager};
ghost use Rattle.sms_manage.specs.ManageText.{managed_text};
ghost use Rattle.store_calls.specs.Checked.{IsFreeFrom};
ghost use Rattle.store_calls.specs.StoreDay.{DayEnds, IsDayLeft, IsDayTold, StoreDayEnds, WasDay, WasDayCut};
ghost use Rattle.store_calls.specs.StoreLists.{seen_sink};
ghost use Rattle.store_calls.specs.StoreRun.{keeping_of};
ghost use Rattle.store_calls.specs.Statuses.{leaves_sink, leaves_sink_of};

use crate::loading::{FoundRows, load_ready};
use crate::numbers::first_free;
use crate::status::StoreStatus;
use crate::writing::write_made;
use acs_tree::Slate;
use desk_calls::{RunStatus, legal_is_lawful};
use dsn_mask::Name;
use manage_calls::push_managed;
use sms_base::Sink;
use sms_core::Core;
use sms_keeper::{Keeper, Rows, Stored};
use sms_manage::{Acts, MANAGER, run_day_from};
use std::alloc::{AllocError, Global};

/// Asks for all that is due on a day on the desk of the store, under numbers behind all that the job of space
/// management has used there, and writes the text of the acts to the sink; it hands the keeper back
/// (docs/manual/smsd.md, "Space management"). Where no such number is left, it ends as where memory is wanting.
pub fn store_manage<K: Sink, P: Stored>(
    alloc: Global,
    day: u32,
    out: &mut K,
    keeper: P,
) -> (StoreStatus, P)
    ensures unwritten { leaves_sink_of result.0 ≡ true → out.new ≡ out.old }
    ensures ends { StoreDayEnds P.Keeper P.damage day (seen_sink K.taken K.write_faults out.old)
        (seen_sink K.taken K.write_faults out.new) keeper result.1 result.0 }
{
    match load_ready(alloc, keeper) {
        Ok((keeper, found)) => {
            let (status, keeper) = manage_found(alloc, day, out, keeper, found);
            (StoreStatus::Ran(status), keeper)
        }
        Err((keeper, err)) => (StoreStatus::Unopened(err), keeper),
    }
}

// The same on a desk that goes on from these rows, which the keeper loaded.
fn manage_found<K: Sink, P: Stored>(
    alloc: Global,
    day: u32,
    out: &mut K,
    keeper: P,
    found: FoundRows,
) -> (RunStatus, P)
    requires sound { IsSoundOpening (opening_of found.rows found.config) }
    requires loaded { IfSome (P.Keeper.told keeper) (λ tables. AreLoaded tables found.rows) }
    ensures unwritten { leaves_sink result.0 ≡ true → out.new ≡ out.old }
    ensures ends { DayEnds (opening_of found.rows found.config) day (seen_sink K.taken K.write_faults out.old)
        (seen_sink K.taken K.write_faults out.new) (keeping_of P.Keeper keeper) (keeping_of P.Keeper result.1)
        result.0 }
{
    let (text, keeper) = day_text(alloc, day, keeper, found);
    (write_made(out, text), keeper)
}

// Does what is due, and makes the text of the acts.
fn day_text<P: Stored>(
    alloc: Global,
    day: u32,
    keeper: P,
    found: FoundRows,
) -> (Result<Vec<u8>, AllocError>, P)
    requires sound { IsSoundOpening (opening_of found.rows found.config) }
    requires loaded { IfSome (P.Keeper.told keeper) (λ tables. AreLoaded tables found.rows) }
    ensures told { IfOk result.0 (λ text. IsDayTold (opening_of found.rows found.config) day
        (keeping_of P.Keeper keeper) (keeping_of P.Keeper result.1) text.items) }
    ensures left { OnErr result.0 (IsDayLeft (opening_of found.rows found.config) day
        (keeping_of P.Keeper keeper) (keeping_of P.Keeper result.1)) }
{
    match take_room(alloc, &found.rows) {
        Ok((first, slate)) => resume_day(alloc, day, first, slate, keeper, found),
        Err(error) => (Err(error), keeper),
    }
}

// A number from which on the job of space management has used none, and room for what routines write.
fn take_room(alloc: Global, rows: &Rows) -> Result<(u32, Slate), AllocError>
    ensures { IfOk result (λ room. IsFreeFrom manager rows.now room.0) }
{
    let Some(job) = Name::new(MANAGER) else {
        return Err(AllocError);
    };
    let Some(first) = first_free(&job, rows) else {
        return Err(AllocError);
    };
    Ok((first, Slate::new(alloc)?))
}

// Does what is due, from this number on.
fn resume_day<P: Stored>(
    alloc: Global,
    day: u32,
    first: u32,
    slate: Slate,
    keeper: P,
    found: FoundRows,
) -> (Result<Vec<u8>, AllocError>, P)
    requires sound { IsSoundOpening (opening_of found.rows found.config) }
    requires loaded { IfSome (P.Keeper.told keeper) (λ tables. AreLoaded tables found.rows) }
    requires free { IsFreeFrom manager found.rows first }
    ensures told { IfOk result.0 (λ text. IsDayTold (opening_of found.rows found.config) day
        (keeping_of P.Keeper keeper) (keeping_of P.Keeper result.1) text.items) }
    ensures left { OnErr result.0 (IsDayLeft (opening_of found.rows found.config) day
        (keeping_of P.Keeper keeper) (keeping_of P.Keeper result.1)) }
{
    let FoundRows { rows, config } = found;
    match Core::resume(alloc, keeper, rows, config) {
        Ok(core) => tell_day(alloc, day, first, slate, core),
        Err((keeper, error)) => (Err(error), keeper),
    }
}

// Does what is due on this desk, which has no entries, from this number on.
fn tell_day<P: Keeper>(
    alloc: Global,
    day: u32,
    first: u32,
    slate: Slate,
    core: Core<P>,
) -> (Result<Vec<u8>, AllocError>, P)
    requires journal { core.journal ≡ [] }
    requires mark { core.mark ≡ P.count core.keeper }
    requires free { IsFreeFrom manager core.opening.rows first }
    ensures told { IfOk result.0 (λ text. IsDayTold core.opening day
        (seen_keeper P.told P.count core.keeper) (seen_keeper P.told P.count result.1) text.items) }
    ensures left { OnErr result.0 (IsDayLeft core.opening day
        (seen_keeper P.told P.count core.keeper) (seen_keeper P.told P.count result.1)) }
{
    let (acts, keeper) = do_day(alloc, day, first, slate, core);
    (acts_text(alloc, acts), keeper)
}

// The same; the acts are handed out.
fn do_day<P: Keeper>(
    alloc: Global,
    day: u32,
    first: u32,
    mut slate: Slate,
    mut core: Core<P>,
) -> (Result<Acts, AllocError>, P)
    requires journal { core.journal ≡ [] }
    requires mark { core.mark ≡ P.count core.keeper }
    requires free { IsFreeFrom manager core.opening.rows first }
    ensures done { IfOk result.0 (λ acts. WasDay core.opening day
        (seen_keeper P.told P.count core.keeper) (seen_keeper P.told P.count result.1) acts) }
    ensures cut { OnErr result.0 (WasDayCut core.opening day
        (seen_keeper P.told P.count core.keeper) (seen_keeper P.told P.count result.1)) }
{
    // Facts for the proof; nothing changes.
    legal_is_lawful();
    let _journal = core.journal();
    let acts = run_day_from(alloc, &mut core, &mut slate, day, first);
    let (keeper, _entries) = core.into_parts();
    (acts, keeper)
}

// The text of the acts, where there are any.
fn acts_text(alloc: Global, acts: Result<Acts, AllocError>) -> Result<Vec<u8>, AllocError>
    ensures { IfOk result (λ text. IsOkAnd acts (λ done. text.items ≡ managed_text done)) }
{
    match acts {
        Ok(acts) => text_of_acts(alloc, &acts),
        Err(error) => Err(error),
    }
}

fn text_of_acts(alloc: Global, acts: &Acts) -> Result<Vec<u8>, AllocError>
    ensures { IfOk result (λ text. text.items ≡ managed_text acts.now) }
{
    let mut text = Vec::new(alloc);
    push_managed(alloc, &mut text, acts.as_slice())?;
    Ok(text)
}
