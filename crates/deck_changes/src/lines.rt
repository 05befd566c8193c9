//! Parts of lines.
ghost use Rattle.std.specs.Prelude.{◌≡◌, ◌++◌, OnOk, decimal};
ghost use Rattle.deck_changes.specs.DeckLines.{numbered, quantities_part, space_part, switch_word};

use desk_common::push_number;
use sms_construct::Space;
use std::alloc::AllocError;
use store_report::unit_bytes;

/// Puts a front and a word behind a text.
pub fn push_worded(text: &mut Vec<u8>, front: &[u8], word: &[u8]) -> Result<(), AllocError>
    ensures { OnOk result (text.new.items ≡ text.old.items ++ (front.now ++ word.now)) }
{
    text.extend_from_slice(front)?;
    text.extend_from_slice(word)?;
    Ok(())
}

/// Puts a front and a number behind a text.
pub fn push_numbered(text: &mut Vec<u8>, front: &[u8], number: u64) -> Result<(), AllocError>
    ensures { OnOk result (text.new.items ≡ text.old.items ++ (front.now ++ decimal number)) }
{
    text.extend_from_slice(front)?;
    push_number(text, number)?;
    Ok(())
}

/// The same where there is a number, and else nothing.
pub fn push_numbered_if(
    text: &mut Vec<u8>,
    front: &[u8],
    number: Option<u32>,
) -> Result<(), AllocError>
    ensures { OnOk result (text.new.items ≡ text.old.items ++ numbered front.now number) }
{
    match number {
        Some(number) => push_numbered(text, front, u64::from(number)),
        None => Ok(()),
    }
}

/// Puts a space behind a text, if there is one.
pub fn push_space(text: &mut Vec<u8>, space: &Option<Space>) -> Result<(), AllocError>
    ensures { OnOk result (text.new.items ≡ text.old.items ++ space_part space.now) }
{
    match space {
        Some(space) => push_quantities(text, space),
        None => Ok(()),
    }
}

fn push_quantities(text: &mut Vec<u8>, space: &Space) -> Result<(), AllocError>
    ensures { OnOk result (text.new.items ≡ text.old.items ++ quantities_part space.now) }
{
    push_worded(text, b" space=(", unit_bytes(space.unit()))?;
    push_numbered(text, b",(", u64::from(space.primary()))?;
    push_numbered(text, b",", u64::from(space.secondary()))?;
    text.extend_from_slice(b"))")?;
    Ok(())
}

/// The word of a switch.
pub fn switch_bytes(switch: bool) -> &'static [u8]
    ensures { result.now ≡ switch_word switch }
{
    if switch { b"YES" } else { b"NO" }
}
