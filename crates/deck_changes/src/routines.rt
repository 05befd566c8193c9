//! What becomes of the routines.
ghost use Rattle.std.specs.Prelude.{◌≡◌, ◌++◌, IfOk, OnOk};
ghost use Rattle.sms_explain.specs.DeckTexts.{source_in};
ghost use Rattle.deck_changes.specs.Differences.{minus, plus};
ghost use Rattle.deck_changes.specs.RoutineChanges.{routine_change, routine_line, routines_change, signed_routine};

use crate::missing::push_signed;
use acs_tree::Kind;
use desk_common::are_same;
use sms_explain::DeckSources;
use std::alloc::{AllocError, Global};

const MINUS: u8 = b'-';

const PLUS: u8 = b'+';

/// Puts behind a text a line for each routine that is gone, and for each that is new; one whose text changed is both.
pub fn push_routines(
    alloc: Global,
    text: &mut Vec<u8>,
    before: &DeckSources,
    after: &DeckSources,
) -> Result<(), AllocError>
    ensures { OnOk result (text.new.items ≡ text.old.items ++ routines_change before.now after.now) }
{
    push_routine(alloc, text, Kind::DataClas, before, after)?;
    push_routine(alloc, text, Kind::StorClas, before, after)?;
    push_routine(alloc, text, Kind::MgmtClas, before, after)?;
    push_routine(alloc, text, Kind::StorGrp, before, after)?;
    Ok(())
}

fn push_routine(
    alloc: Global,
    text: &mut Vec<u8>,
    kind: Kind,
    before: &DeckSources,
    after: &DeckSources,
) -> Result<(), AllocError>
    ensures { OnOk result (text.new.items ≡ text.old.items ++
        routine_change kind (source_in before.now kind).text (source_in after.now kind).text) }
{
    let old = before.of_kind(kind).text.as_slice();
    let new = after.of_kind(kind).text.as_slice();
    push_change(alloc, text, kind, old, new)
}

// What becomes of the routine of a kind with these texts.
fn push_change(
    alloc: Global,
    text: &mut Vec<u8>,
    kind: Kind,
    before: &[u8],
    after: &[u8],
) -> Result<(), AllocError>
    ensures { OnOk result (text.new.items ≡ text.old.items ++ routine_change kind before.now after.now) }
{
    if are_same(before, after) {
        return Ok(());
    }
    push_signed_routine(alloc, text, MINUS, kind, before)?;
    push_signed_routine(alloc, text, PLUS, kind, after)?;
    Ok(())
}

// Puts the line of the routine of a kind with this text behind a text, behind a sign; none where it has no text.
fn push_signed_routine(
    alloc: Global,
    text: &mut Vec<u8>,
    sign: u8,
    kind: Kind,
    routine: &[u8],
) -> Result<(), AllocError>
    ensures { OnOk result (text.new.items ≡ text.old.items ++ signed_routine sign kind routine.now) }
{
    match routine {
        [] => Ok(()),
        [_, ..] => {
            let line = routine_line(alloc, kind)?;
            push_signed(text, sign, &line)
        }
    }
}

fn routine_line(alloc: Global, kind: Kind) -> Result<Vec<u8>, AllocError>
    ensures { IfOk result (λ line. line.items ≡ routine_line kind) }
{
    let mut line = b"ROUTINE ".to_vec(alloc)?;
    line.extend_from_slice(kind.name())?;
    Ok(line)
}
