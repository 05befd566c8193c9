// Entries of filter lists that others cover.
ghost use Rattle.std.specs.Prelude.{◌≡◌, ◌++◌, OnOk};
ghost use Rattle.acs_lint.specs.Entries.{covers_entry, covers_mask, covers_text, entry_coverer, spare_if, spare_in};

use crate::finding::Finding;
use crate::mask_covering::mask_covers;
use crate::operands::{is_mask, is_simple};
use crate::piece_covering::piece_covers;
use acs_tree::{Ident, Operand, OperandForm};
use desk_common::are_same;
use std::alloc::AllocError;

fn covers_text(wide: &Ident, text: &[u8]) -> bool
    ensures { result ≡ covers_text wide.now text.now }
{
    (mask_covers(wide.bytes(), text) && is_mask(wide))
        && (!is_simple(wide) || piece_covers(wide.bytes(), text))
}

fn covers_mask(wide: &Ident, word: &Ident) -> bool
    ensures { result ≡ covers_mask wide.now word.now }
{
    (mask_covers(wide.bytes(), word.bytes()) && is_mask(wide))
        && (!is_simple(word) || (!is_simple(wide) || piece_covers(wide.bytes(), word.bytes())))
}

fn covers_entry(wide: &OperandForm, other: &OperandForm) -> bool
    ensures { result ≡ covers_entry wide.now other.now }
{
    match (wide, other) {
        (OperandForm::Literal(wide), OperandForm::Literal(text)) => {
            are_same(wide.bytes(), text.bytes())
        }
        (OperandForm::Word(wide), OperandForm::Literal(text)) => covers_text(wide, text.bytes()),
        (OperandForm::Word(wide), OperandForm::Word(word)) => {
            are_same(wide.bytes(), word.bytes()) || covers_mask(wide, word)
        }
        _ => false,
    }
}

// The first of the earlier entries that covers a later one.
fn entry_coverer(later: &OperandForm, before: &[Operand]) -> Option<u32>
    ensures { result ≡ entry_coverer later.now before.now }
{
    for earlier in before {
        if covers_entry(&earlier.form, later) {
            return Some(earlier.at);
        }
    }
    None
}

fn push_if_spare(found: &mut Vec<Finding>, entry: u32, since: Option<u32>) -> Result<(), AllocError>
    ensures { OnOk result (found.new.items ≡ found.old.items ++ spare_if entry since) }
{
    if let Some(since) = since {
        found.push(Finding::Spare { entry, since })?;
    }
    Ok(())
}

/// Finds the entries of an INCLUDE or an EXCLUDE that earlier ones cover.
pub fn push_spare(found: &mut Vec<Finding>, entries: &[Operand]) -> Result<(), AllocError>
    ensures { OnOk result (found.new.items ≡ found.old.items ++ spare_in entries.now) }
{
    for place in 0..entries.len() {
        let entry = &entries[place];
        push_if_spare(
            found,
            entry.at,
            entry_coverer(&entry.form, &entries[..place]),
        )?;
    }
    Ok(())
}
