//! The notes on faults of routines.
use crate::hinting::hint_of;
use crate::marking::marked;
use crate::place::place_at;
use crate::showing::{shown, told};
use crate::spot::{Spot, spot_of};
use crate::wording::{Wording, wording_of};
use sms_construct::TextFault;
use std::alloc::{AllocError, Global};

/// What the fault of this routine's text means, and where it stands (docs/manual/tool.md, "What a fault means").
pub fn routine_note(alloc: Global, text: &[u8], fault: &TextFault) -> Result<String, AllocError> {
    let fault = marked(alloc, text, fault)?;
    let spot = spot_of(alloc, text, &fault)?;
    let sentence = sentence(alloc, text, spot, &fault, 0)?;
    told(alloc, 0, &place_at(text, spot.from), &sentence)
}

/// The sentence of a fault that stands at this spot, and what would suit there. So many lines of the input stand
/// before the routine.
pub fn sentence(
    alloc: Global,
    text: &[u8],
    spot: Spot,
    fault: &TextFault,
    lines_before: usize,
) -> Result<String, AllocError> {
    let hint = hint_of(alloc, text, fault, lines_before)?;
    match wording_of(fault) {
        Wording::Whole(words) => format!(in alloc; "{words}{hint}"),
        Wording::Around(before, after) => {
            let bytes = text.get(spot.from..spot.to).unwrap_or(&[]);
            let token = shown(alloc, bytes)?;
            format!(in alloc; "{before}{token}{after}{hint}")
        }
    }
}
