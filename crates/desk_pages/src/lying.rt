//! Extents on a volume, and the gaps between them.
ghost use Rattle.std.specs.Prelude.{◌≡◌, ◌+◌, ◌++◌, IfOk, OnOk};
ghost use Rattle.desk_law.specs.State.{DeskState};
ghost use Rattle.desk_pages.specs.Lying.{AreFound, AreLying, gaps_beside, gaps_of, lies_behind, lying_in, run_of};

use crate::shown_desk::ShownDesk;
use desk_common::BORDER;
use dsn_mask::Volser;
use page_text::{Gap, SetExtent};
use sms_construct::{DataSet, Extent};
use std::alloc::{AllocError, Global};

/// The extents of all data sets that lie on the volume and end behind a track, in the order of their first tracks.
pub fn extents_on<D: ShownDesk>(
    alloc: Global,
    desk: &D,
    volser: &Volser,
    from: u32,
) -> Result<Vec<SetExtent>, AllocError>
    ensures { IfOk result (λ extents. (s : DeskState) → D.stands desk.now s →
        AreLying s.sets volser.now from extents.items) }
{
    let mut extents = all_extents(alloc, desk, volser, from)?;
    extents.sort_unstable_by_key(|extent| extent.start);
    Ok(extents)
}

// The same in the order of the data sets' names. More data sets than this counts find no memory.
fn all_extents<D: ShownDesk>(
    alloc: Global,
    desk: &D,
    volser: &Volser,
    from: u32,
) -> Result<Vec<SetExtent>, AllocError>
    ensures { IfOk result (λ extents. (s : DeskState) → D.stands desk.now s →
        AreFound s.sets volser.now from extents.items) }
{
    let mut at = None;
    let mut extents = Vec::new(alloc);
    let mut looked = 0;
    while looked < u64::MAX {
        let Some(set) = desk.set_after(at.as_ref()) else {
            return Ok(extents);
        };
        looked += 1;
        at = Some(set.dsn);
        push_lying(&mut extents, set, volser, from)?;
    }
    Err(AllocError)
}

// Puts the extents of a data set that lie on the volume and end behind a track behind others.
fn push_lying(
    extents: &mut Vec<SetExtent>,
    set: &DataSet,
    volser: &Volser,
    from: u32,
) -> Result<(), AllocError>
    ensures { OnOk result (extents.new.items
        ≡ extents.old.items ++ lying_in volser.now from set.now.dsn set.now.extents) }
{
    let mut rest = set.extents.as_slice();
    while let [extent, others @ ..] = rest {
        if lies_behind(volser, from, extent) {
            extents.push(SetExtent {
                dsn: set.dsn,
                start: extent.start,
                length: extent.length,
            })?;
        }
        rest = others;
    }
    Ok(())
}

fn lies_behind(volser: &Volser, from: u32, extent: &Extent) -> bool
    ensures { result ≡ lies_behind volser.now from extent.now }
{
    extent.volser == *volser && u64::from(from) < u64::from(extent.start) + u64::from(extent.length)
}

/// The gaps among the tracks from one on, before another, beside these extents.
pub fn gaps_beside(
    alloc: Global,
    from: u64,
    end: u64,
    extents: &[SetExtent],
) -> Result<Vec<Gap>, AllocError>
    ensures { IfOk result (λ gaps. gaps.items ≡ gaps_beside end from extents.entry.now) }
{
    let mut gaps = Vec::new(alloc);
    let mut at = from;
    let mut rest = extents;
    while let [extent, others @ ..] = rest {
        push_gaps(&mut gaps, at, u64::from(extent.start))?;
        at = end_of(extent);
        rest = others;
    }
    push_gaps(&mut gaps, at, end)?;
    Ok(gaps)
}

// The first track behind an extent.
fn end_of(extent: &SetExtent) -> u64
    ensures { result ≡ extent.now.start + extent.now.length }
{
    u64::from(extent.start) + u64::from(extent.length)
}

// Puts the tracks from one on, before another, cut where the cylinder-managed part begins, behind others.
fn push_gaps(gaps: &mut Vec<Gap>, from: u64, end: u64) -> Result<(), AllocError>
    ensures { OnOk result (gaps.new.items ≡ gaps.old.items ++ gaps_of from end) }
{
    let border = u64::from(BORDER);
    if from < border && border < end {
        push_run(gaps, from, border)?;
        return push_run(gaps, border, end);
    }
    push_run(gaps, from, end)
}

fn push_run(gaps: &mut Vec<Gap>, from: u64, end: u64) -> Result<(), AllocError>
    ensures { OnOk result (gaps.new.items ≡ gaps.old.items ++ run_of from end) }
{
    if from < end {
        gaps.push(Gap {
            start: from,
            length: end - from,
        })?;
    }
    Ok(())
}
