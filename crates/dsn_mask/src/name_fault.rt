//! The first fault of a data set name.
ghost use Rattle.std.specs.Prelude.{◌≡◌, ◌≤◌, ◌<◌, ◌+◌, ◌∷◌, true, false, ℕ, length, option_copied, slice_index};
ghost use Rattle.std.specs.Prelude.{IfSome, IsTrue, MatchOption};
ghost use Rattle.std.specs.List.{list_all};
ghost use Rattle.desk_common.specs.Limits.{most_name_bytes, most_value_bytes};
ghost use Rattle.dsn_mask.specs.Qualifiers.{qualifiers_left, qualifiers_of};
ghost use Rattle.dsn_mask.specs.DataSetName.{is_qualifier, is_qualifier_byte};
ghost use Rattle.dsn_mask.specs.NameFault.{IsFirstIn, IsFirstAmong};

use crate::NameErr;
use crate::byte_class::{is_initial, is_qualifier_byte};
use crate::qualifiers::{Cut, first_qualifier};
use desk_common::MAX_NAME;

// The number of qualifier bytes at the front, up to eight.
fn good_front(bytes: &[u8]) -> usize
    ensures within { result ≤ length bytes.now }
    ensures short { result ≤ most_name_bytes }
    ensures before { (k : ℕ) → k < result → is_qualifier_byte (slice_index bytes.now k) ≡ true }
    ensures bad { result < length bytes.now → result < most_name_bytes →
        is_qualifier_byte (slice_index bytes.now result) ≡ false }
{
    for (at, byte) in bytes.iter().enumerate() {
        if at == MAX_NAME || !is_qualifier_byte(*byte) {
            return at;
        }
    }
    bytes.len()
}

#[tactic(auto, using(crate::proofs::Faults::qualifier_faults))]
fn qualifier_fault(start: u32, number: u32, qualifier: &[u8]) -> Option<NameErr>
    requires { start + length qualifier.now ≤ most_value_bytes }
    ensures { MatchOption result (is_qualifier qualifier.now ≡ true)
        (λ err. (is_qualifier qualifier.now ≡ false) × IsFirstIn start number qualifier.now err) }
{
    if qualifier.is_empty() {
        return Some(NameErr::BadQualifier(number));
    }
    if !is_initial(qualifier[0]) {
        return Some(NameErr::BadByte(start));
    }
    let good = good_front(qualifier);
    if good == qualifier.len() {
        None
    } else if good == MAX_NAME {
        Some(NameErr::BadQualifier(number))
    } else {
        Some(NameErr::BadByte(start + good as u32))
    }
}

// The first qualifier, if it is in form, and what is behind its full stop.
fn good_qualifier(text: &[u8]) -> Option<Cut<'_>>
    ensures split { IfSome result (λ cut.
        qualifiers_of text.now ≡ cut.qualifier.now ∷ qualifiers_left (option_copied cut.rest)) }
    ensures good { IfSome result (λ cut. is_qualifier cut.qualifier.now ≡ true) }
    ensures shorter { IfSome result (λ cut. IfSome cut.rest (λ rest. length rest.now < length text.now)) }
{
    if text.is_empty() || !is_initial(text[0]) {
        return None;
    }
    let count = good_front(text);
    if count == text.len() {
        return Some(Cut {
            qualifier: text,
            rest: None,
        });
    }
    if text[count] != b'.' {
        return None;
    }
    Some(Cut {
        qualifier: &text[..count],
        rest: Some(&text[count + 1..]),
    })
}

// Whether all qualifiers are in form. One walk over the bytes tells it.
fn are_in_form(bytes: &[u8]) -> bool
    ensures { IsTrue result → list_all is_qualifier (qualifiers_of bytes.now) ≡ true }
{
    let mut text = bytes;
    'walk: loop {
        let Some(cut) = good_qualifier(text) else {
            return false;
        };
        let Some(rest) = cut.rest else {
            return true;
        };
        text = rest;
    }
}

/// The first fault of the qualifiers, if there is one. A name in form is walked over once.
pub fn first_fault(bytes: &[u8]) -> Option<NameErr>
    requires { length bytes.now ≤ most_value_bytes }
    ensures { MatchOption result (list_all is_qualifier (qualifiers_of bytes.now) ≡ true)
        (λ err. (list_all is_qualifier (qualifiers_of bytes.now) ≡ false) ×
        IsFirstAmong 0 1 (qualifiers_of bytes.now) err) }
{
    if are_in_form(bytes) {
        return None;
    }
    let mut text = bytes;
    let mut start: u32 = 0;
    let mut number: u32 = 1;
    'walk: loop {
        let cut = first_qualifier(text);
        if let Some(fault) = qualifier_fault(start, number, cut.qualifier) {
            return Some(fault);
        }
        let Some(rest) = cut.rest else {
            return None;
        };
        start += cut.qualifier.len() as u32 + 1;
        number += 1;
        text = rest;
    }
}
