//! A list of what a store holds.
ghost use Rattle.std.specs.Prelude.{◌≡◌, [], IfOk, map, true};
ghost use Rattle.desk_law.specs.Extents.{extents_of};
ghost use Rattle.desk_law.specs.History.{Reaches};
ghost use Rattle.desk_law.specs.State.{DeskState, Opening as Begun, start_of};
ghost use Rattle.desk_law.specs.Volumes.{groups_in};
ghost use Rattle.desk_records.specs.Tied.{IsSoundOpening};
ghost use Rattle.desk_restoring.specs.Opened.{opening_of};
ghost use Rattle.store_report.specs.Texts.{groups_text, volumes_text};
ghost use Rattle.store_report.specs.declared.query.Query.{Query as Asked};
ghost use Rattle.store_calls.specs.StoreLists.{IsListed, ListEnds, StoreListEnds, classes_of, group_rows, seen_sink};
ghost use Rattle.store_calls.specs.StoreLists.{set_rows, volume_rows};
ghost use Rattle.store_calls.specs.Statuses.{leaves_sink, leaves_sink_of};

use crate::loading::{FoundRows, load_store};
use crate::nowhere::Nowhere;
use crate::status::StoreStatus;
use deck_meaning::Config;
use desk_calls::RunStatus;
use sms_base::{Sink, write_all};
use sms_construct::{DataSet, Extent, StorGroup};
use sms_core::Core;
use sms_keeper::Stored;
use std::alloc::{AllocError, Global};
use store_report::{
    Format, Listing, Query, classes_text, extents_text, groups_text, pick_extents, pick_groups,
    pick_sets, pick_volumes, sets_text, volumes_text,
};
use volume_gaps::{all_extents, listed_volumes};

/// Writes the list that is asked for of what the store holds to the sink. Nothing of the store is written: it isn't
/// even made ready. It hands the keeper back (docs/manual/smsd.md, "Lists").
pub fn store_list<K: Sink, P: Stored>(
    alloc: Global,
    query: &Query,
    out: &mut K,
    keeper: P,
) -> (StoreStatus, P)
    ensures unwritten { leaves_sink_of result.0 ≡ true → out.new ≡ out.old }
    ensures ends { StoreListEnds P.Keeper P.damage query.now (seen_sink K.taken K.write_faults out.old)
        (seen_sink K.taken K.write_faults out.new) keeper result.1 result.0 }
{
    match query.listing {
        Listing::Groups | Listing::Volumes => list_desk(alloc, query, out, keeper),
        Listing::Classes | Listing::Sets | Listing::Extents => {
            list_rows(alloc, query, out, keeper)
        }
    }
}

// Writes a list of storage groups or volumes: those of the desk that goes on from the store.
fn list_desk<K: Sink, P: Stored>(
    alloc: Global,
    query: &Query,
    out: &mut K,
    keeper: P,
) -> (StoreStatus, P)
    ensures unwritten { leaves_sink_of result.0 ≡ true → out.new ≡ out.old }
    ensures ends { StoreListEnds P.Keeper P.damage query.now (seen_sink K.taken K.write_faults out.old)
        (seen_sink K.taken K.write_faults out.new) keeper result.1 result.0 }
{
    match load_store(alloc, keeper) {
        Ok((keeper, found)) => {
            let text = desk_text(alloc, query, found);
            (StoreStatus::Ran(write_text(out, text)), keeper)
        }
        Err((keeper, err)) => (StoreStatus::Unopened(err), keeper),
    }
}

// The list of a desk that goes on from what was found, and that nobody keeps.
fn desk_text(alloc: Global, query: &Query, found: FoundRows) -> Result<Vec<u8>, AllocError>
    requires sound { IsSoundOpening (opening_of found.rows found.config) }
    ensures { IfOk result (λ text. IsListed query.now (opening_of found.rows found.config) text.items) }
{
    let extents = all_extents(alloc, found.rows.sets.as_slice())?;
    let core = core_of(alloc, found)?;
    core_text(alloc, query, &core, &extents)
}

// A desk that goes on from what was found.
fn core_of(alloc: Global, found: FoundRows) -> Result<Core<Nowhere>, AllocError>
    requires sound { IsSoundOpening (opening_of found.rows found.config) }
    ensures opening { IfOk result (λ core. core.opening ≡ opening_of found.rows found.config) }
    ensures journal { IfOk result (λ core. core.journal ≡ []) }
{
    let FoundRows { rows, config } = found;
    match Core::resume(alloc, Nowhere, rows, config) {
        Ok(core) => Ok(core),
        Err((_, error)) => Err(error),
    }
}

// The list of a desk that was just opened, whose data sets have these extents; a list of classes, data sets or extents
// isn't made of it.
fn core_text(
    alloc: Global,
    query: &Query,
    core: &Core<Nowhere>,
    extents: &[Extent],
) -> Result<Vec<u8>, AllocError>
    requires new { core.now.journal ≡ [] }
    requires extents { extents.now ≡ extents_of core.now.opening.rows.sets }
    ensures { IfOk result (λ text. IsListed query.now core.now.opening text.items) }
{
    match query.listing {
        Listing::Groups => list_groups(alloc, query, core),
        Listing::Volumes => list_volumes(alloc, query, core, extents),
        Listing::Classes | Listing::Sets | Listing::Extents => Err(AllocError),
    }
}

// The list of the storage groups.
fn list_groups(alloc: Global, query: &Query, core: &Core<Nowhere>) -> Result<Vec<u8>, AllocError>
    requires { core.now.journal ≡ [] }
    ensures { IfOk result (λ text. text.items
        ≡ groups_text query.now.format (group_rows query.now.selection (start_of core.now.opening))) }
{
    let rows = core.vol_rows()?;
    let picked = pick_groups(alloc, groups_in(core), rows.as_slice(), &query.selection)?;
    groups_text(alloc, query.format, &picked)
}

// The storage groups of the active configuration.
fn groups_in(core: &Core<Nowhere>) -> &[StorGroup]
    ensures { (s : DeskState) → Reaches core.now.opening core.now.journal s → result.now ≡ groups_in s.active }
{
    match core.active() {
        Some((_, config)) => config.get().groups(),
        None => &[],
    }
}

// The list of the volumes.
fn list_volumes(
    alloc: Global,
    query: &Query,
    core: &Core<Nowhere>,
    extents: &[Extent],
) -> Result<Vec<u8>, AllocError>
    requires new { core.now.journal ≡ [] }
    requires extents { extents.now ≡ extents_of core.now.opening.rows.sets }
    ensures { IfOk result (λ text. text.items
        ≡ volumes_text query.now.format (volume_rows query.now.selection (start_of core.now.opening))) }
{
    let rows = core.vol_rows()?;
    let picked = pick_volumes(alloc, rows.as_slice(), &query.selection)?;
    let volumes = listed_volumes(alloc, &picked, groups_in(core), extents)?;
    volumes_text(alloc, query.format, &volumes)
}

// Writes a list of classes, data sets or extents: those of the rows, which aren't made a desk of.
fn list_rows<K: Sink, P: Stored>(
    alloc: Global,
    query: &Query,
    out: &mut K,
    keeper: P,
) -> (StoreStatus, P)
    ensures unwritten { leaves_sink_of result.0 ≡ true → out.new ≡ out.old }
    ensures ends { StoreListEnds P.Keeper P.damage query.now (seen_sink K.taken K.write_faults out.old)
        (seen_sink K.taken K.write_faults out.new) keeper result.1 result.0 }
{
    match load_store(alloc, keeper) {
        Ok((keeper, found)) => {
            let text = found_text(alloc, query, &found);
            (StoreStatus::Ran(write_text(out, text)), keeper)
        }
        Err((keeper, err)) => (StoreStatus::Unopened(err), keeper),
    }
}

// The list of what was found.
fn found_text(alloc: Global, query: &Query, found: &FoundRows) -> Result<Vec<u8>, AllocError>
    ensures { IfOk result (λ text. IsListed query.now (opening_of found.now.rows found.now.config) text.items) }
{
    match query.listing {
        Listing::Classes => list_classes(alloc, query.format, &found.config),
        Listing::Groups | Listing::Volumes | Listing::Sets | Listing::Extents => {
            rows_text(alloc, query, found)
        }
    }
}

// The list of the classes.
fn list_classes(
    alloc: Global,
    format: Format,
    active: &Option<Config>,
) -> Result<Vec<u8>, AllocError>
    ensures { IfOk result (λ text. text.items ≡ classes_of format active.now) }
{
    match active {
        Some(config) => classes_text(
            alloc,
            format,
            config.data_classes(),
            config.storage_classes(),
            config.management_classes(),
        ),
        None => classes_text(alloc, format, &[], &[], &[]),
    }
}

// The list of the data sets that were found, or of their extents.
fn rows_text(alloc: Global, query: &Query, found: &FoundRows) -> Result<Vec<u8>, AllocError>
    ensures { IfOk result (λ text. IsListed query.now (opening_of found.now.rows found.now.config) text.items) }
{
    let sets = pick_sets(alloc, found.rows.sets.as_slice(), &query.selection)?;
    picked_text(alloc, query, &sets)
}

// The list of these data sets, or of their extents; another list isn't made of them.
fn picked_text(alloc: Global, query: &Query, sets: &[&DataSet]) -> Result<Vec<u8>, AllocError>
    ensures { IfOk result (λ text. (o : Begun) →
        map (λ set. set.now) sets.now ≡ set_rows query.now.selection o.rows.sets → IsListed query.now o text.items) }
{
    match query.listing {
        Listing::Sets => sets_text(alloc, query.format, sets),
        Listing::Extents => {
            let rows = pick_extents(alloc, sets, &query.selection.volume)?;
            extents_text(alloc, query.format, &rows)
        }
        Listing::Groups | Listing::Volumes | Listing::Classes => Err(AllocError),
    }
}

// Writes a text, where there is memory for it.
fn write_text<K: Sink>(out: &mut K, text: Result<Vec<u8>, AllocError>) -> RunStatus
    ensures unwritten { leaves_sink result ≡ true → out.new ≡ out.old }
    ensures ends { (query : Asked) (o : Begun) → IfOk text (λ bytes. IsListed query o bytes.items) →
        ListEnds query o (seen_sink K.taken K.write_faults out.old)
        (seen_sink K.taken K.write_faults out.new) result }
{
    let Ok(text) = text else {
        return RunStatus::NoMemory;
    };
    match write_all(out, &text) {
        Ok(()) => RunStatus::Done,
        Err(_) => RunStatus::WriteFault,
    }
}
