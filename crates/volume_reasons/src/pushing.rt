//! Candidate volumes as text.
ghost use Rattle.std.specs.Prelude.{◌≡◌, ◌++◌, OnOk, flat_map};
ghost use Rattle.volume_reasons.specs.Inner.Turns.{turn_text};
ghost use Rattle.volume_reasons.specs.VolumesText.{asked_text, choice_text, front_text, line_text, list_text};
ghost use Rattle.volume_reasons.specs.VolumesText.{none_text, reason_if, reason_text, standing_text, tier_text};
ghost use Rattle.volume_reasons.specs.VolumesText.{views_text};

use crate::reason::{Reason, reason_in};
use crate::turn::{Turn, first_turn};
use desk_common::push_number;
use sms_script::{push_number_and_blank, push_word_and_blank, status_bytes};
use std::alloc::AllocError;
use volume_lists::{Listing, VolView, Want, listing};

/// Puts what is told of the candidates for what is asked behind a text (docs/manual/tool.md, "Candidate volumes"), or
/// only a front of it where memory is wanting.
pub fn push_views(text: &mut Vec<u8>, views: &[VolView], want: &Want) -> Result<(), AllocError>
    ensures { OnOk result (text.new.items ≡ text.old.items ++ views_text views.now want.now) }
{
    let first = first_turn(views, want);
    push_asked(text, want)?;
    push_volumes(text, views, want, first)?;
    push_none(text, first.is_last())?;
    Ok(())
}

fn push_asked(text: &mut Vec<u8>, want: &Want) -> Result<(), AllocError>
    ensures { OnOk result (text.new.items ≡ text.old.items ++ asked_text want.now) }
{
    text.extend_from_slice(b"  ASKED TRACKS ")?;
    push_number(text, u64::from(want.need))?;
    text.extend_from_slice(b" VOLUMES ")?;
    push_number(text, u64::from(want.volumes))?;
    text.extend_from_slice(b"\n")
}

// The lines of the volumes, where this is the earliest turn.
fn push_volumes(
    text: &mut Vec<u8>,
    views: &[VolView],
    want: &Want,
    first: Turn,
) -> Result<(), AllocError>
    ensures { OnOk result (text.new.items ≡ text.old.items ++ flat_map (turn_text first want.now) views.now) }
{
    for view in views {
        push_volume(text, view, want, first.has(view, want))?;
    }
    Ok(())
}

// The line of a volume that may be chosen, or that may not.
fn push_volume(text: &mut Vec<u8>, view: &VolView, want: &Want, may: bool) -> Result<(), AllocError>
    ensures { OnOk result (text.new.items ≡ text.old.items ++ line_text want.now view.now may) }
{
    push_front(text, view)?;
    push_standing(text, view, want)?;
    push_choice(text, may)?;
    text.extend_from_slice(b"\n")
}

fn push_front(text: &mut Vec<u8>, view: &VolView) -> Result<(), AllocError>
    ensures { OnOk result (text.new.items ≡ text.old.items ++ front_text view.now) }
{
    text.extend_from_slice(b"  VOLUME ")?;
    push_word_and_blank(text, view.volser.bytes())?;
    push_word_and_blank(text, view.group.bytes())?;
    push_number_and_blank(text, u64::from(view.capacity))
}

// The list of a volume, and why it stands there.
fn push_standing(text: &mut Vec<u8>, view: &VolView, want: &Want) -> Result<(), AllocError>
    ensures { OnOk result (text.new.items ≡ text.old.items ++ standing_text want.now view.now) }
{
    let listing = listing(view, want);
    text.extend_from_slice(list_bytes(listing))?;
    push_reason(text, reason_in(listing, view), view)?;
    push_tier(text, view.tier)
}

fn list_bytes(listing: Listing) -> &'static [u8]
    ensures { result.now ≡ list_text listing }
{
    match listing {
        Listing::Primary => b"PRIMARY",
        Listing::Secondary => b"SECONDARY",
        Listing::Tertiary => b"TERTIARY",
        Listing::Rejected(_) => b"REJECTED",
    }
}

fn push_reason(text: &mut Vec<u8>, reason: Option<Reason>, view: &VolView) -> Result<(), AllocError>
    ensures { OnOk result (text.new.items ≡ text.old.items ++ reason_if reason view.now) }
{
    match reason {
        Some(reason) => push_one_reason(text, reason, view),
        None => Ok(()),
    }
}

fn push_one_reason(text: &mut Vec<u8>, reason: Reason, view: &VolView) -> Result<(), AllocError>
    ensures { OnOk result (text.new.items ≡ text.old.items ++ reason_text reason view.now) }
{
    match reason {
        Reason::GroupStatus => {
            text.extend_from_slice(b" GROUP ")?;
            text.extend_from_slice(status_bytes(view.group_status))
        }
        Reason::VolumeStatus => {
            text.extend_from_slice(b" VOLUME ")?;
            text.extend_from_slice(status_bytes(view.status))
        }
        Reason::NoRoom => text.extend_from_slice(b" NO ROOM"),
        Reason::FewVolumes => text.extend_from_slice(b" FEW VOLUMES"),
        Reason::Overflow => text.extend_from_slice(b" OVERFLOW"),
        Reason::Threshold => {
            text.extend_from_slice(b" THRESHOLD ")?;
            push_number(text, u64::from(view.high))
        }
    }
}

fn push_tier(text: &mut Vec<u8>, tier: u8) -> Result<(), AllocError>
    ensures { OnOk result (text.new.items ≡ text.old.items ++ tier_text tier) }
{
    if tier == 0 {
        return Ok(());
    }
    text.extend_from_slice(b" TIER ")?;
    push_number(text, u64::from(tier) + 1)
}

fn push_choice(text: &mut Vec<u8>, may: bool) -> Result<(), AllocError>
    ensures { OnOk result (text.new.items ≡ text.old.items ++ choice_text may) }
{
    if may {
        return text.extend_from_slice(b" MAY BE CHOSEN");
    }
    Ok(())
}

fn push_none(text: &mut Vec<u8>, none: bool) -> Result<(), AllocError>
    ensures { OnOk result (text.new.items ≡ text.old.items ++ none_text none) }
{
    if none {
        return text.extend_from_slice(b"  NO VOLUME\n");
    }
    Ok(())
}
