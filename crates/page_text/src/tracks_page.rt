//! Pages of a volume.
ghost use Rattle.std.specs.Prelude.{◌≡◌, ◌++◌, IfOk, OnOk, false};
ghost use Rattle.serde_json.specs.Written.{items_text};
ghost use Rattle.page_text.specs.TrackBodies.{gap_body, gap_values, set_extent_body, set_extent_values, tracks_body};
ghost use Rattle.page_text.specs.Inner.TrackPieces.{gap_piece, set_extent_piece, tracks_figures, tracks_rest};
ghost use Rattle.page_text.specs.Inner.TrackPieces.{tracks_text};

use crate::gap::Gap;
use crate::pieces::{push_count, push_count_if, push_text};
use crate::set_extent::SetExtent;
use crate::volume_page::push_front;
use desk_common::Items;
use sms_construct::VolRow;
use std::alloc::{AllocError, Global};

/// A page of a volume with these extents and gaps, in order; the next page goes on from track `next`, where there is
/// one (docs/manual/smsd.md, "What pages show").
pub fn tracks_body(
    alloc: Global,
    row: &VolRow,
    extents: &[SetExtent],
    gaps: &[Gap],
    next: Option<u64>,
) -> Result<Items<u8>, AllocError>
    ensures { IfOk result (λ body. body ≡ tracks_body row.now extents.now gaps.now next) }
{
    let mut text = Vec::new(alloc);
    push_page(&mut text, row, extents, gaps, next)?;
    Ok(Items::from_vec(text))
}

fn push_page(
    text: &mut Vec<u8>,
    row: &VolRow,
    extents: &[SetExtent],
    gaps: &[Gap],
    next: Option<u64>,
) -> Result<(), AllocError>
    ensures { OnOk result (text.new.items ≡ text.old.items ++ tracks_text row.now extents.now gaps.now next) }
{
    push_front(text, row)?;
    push_figures(text, row)?;
    push_rest(text, extents, gaps, next)?;
    Ok(())
}

// Puts the tracks of a volume, and the free ones, behind a text.
fn push_figures(text: &mut Vec<u8>, row: &VolRow) -> Result<(), AllocError>
    ensures { OnOk result (text.new.items ≡ text.old.items ++ tracks_figures row.now) }
{
    push_count(text, b",\"capacity\":", u64::from(row.capacity))?;
    push_count(text, b",\"free\":", u64::from(row.free))?;
    Ok(())
}

// Puts what lies on the tracks behind a text.
fn push_rest(
    text: &mut Vec<u8>,
    extents: &[SetExtent],
    gaps: &[Gap],
    next: Option<u64>,
) -> Result<(), AllocError>
    ensures { OnOk result (text.new.items ≡ text.old.items ++ tracks_rest extents.now gaps.now next) }
{
    text.extend_from_slice(b",\"extents\":[")?;
    push_extents(text, extents)?;
    text.extend_from_slice(b",\"gaps\":[")?;
    push_gaps(text, gaps)?;
    text.extend_from_slice(b",\"next\":")?;
    push_count_if(text, next)?;
    text.push(b'}')?;
    Ok(())
}

// Puts extents behind a text, with commas between them, and the closing bracket.
fn push_extents(text: &mut Vec<u8>, extents: &[SetExtent]) -> Result<(), AllocError>
    ensures { OnOk result (text.new.items
        ≡ text.old.items ++ items_text false (set_extent_values extents.entry.now)) }
{
    let mut later = false;
    let mut rest = extents;
    while let [extent, others @ ..] = rest {
        if later {
            text.push(b',')?;
        }
        push_extent(text, extent)?;
        later = true;
        rest = others;
    }
    text.push(b']')?;
    Ok(())
}

// Puts an extent behind a text.
fn push_extent(text: &mut Vec<u8>, extent: &SetExtent) -> Result<(), AllocError>
    ensures { OnOk result (text.new.items ≡ text.old.items ++ set_extent_body extent.now) }
{
    push_place(text, extent)?;
    Ok(())
}

fn push_place(text: &mut Vec<u8>, extent: &SetExtent) -> Result<(), AllocError>
    ensures { OnOk result (text.new.items ≡ text.old.items ++ set_extent_piece extent.now) }
{
    push_text(text, b"{\"dsn\":", extent.dsn.bytes())?;
    push_count(text, b",\"start\":", u64::from(extent.start))?;
    push_count(text, b",\"tracks\":", u64::from(extent.length))?;
    text.push(b'}')?;
    Ok(())
}

// Puts gaps behind a text, with commas between them, and the closing bracket.
fn push_gaps(text: &mut Vec<u8>, gaps: &[Gap]) -> Result<(), AllocError>
    ensures { OnOk result (text.new.items ≡ text.old.items ++ items_text false (gap_values gaps.entry.now)) }
{
    let mut later = false;
    let mut rest = gaps;
    while let [gap, others @ ..] = rest {
        if later {
            text.push(b',')?;
        }
        push_gap(text, gap)?;
        later = true;
        rest = others;
    }
    text.push(b']')?;
    Ok(())
}

// Puts a gap behind a text.
fn push_gap(text: &mut Vec<u8>, gap: &Gap) -> Result<(), AllocError>
    ensures { OnOk result (text.new.items ≡ text.old.items ++ gap_body gap.now) }
{
    push_room(text, gap)?;
    Ok(())
}

fn push_room(text: &mut Vec<u8>, gap: &Gap) -> Result<(), AllocError>
    ensures { OnOk result (text.new.items ≡ text.old.items ++ gap_piece gap.now) }
{
    push_count(text, b"{\"start\":", gap.start)?;
    push_count(text, b",\"tracks\":", gap.length)?;
    text.push(b'}')?;
    Ok(())
}
