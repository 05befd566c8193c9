//! The first fault of a text that is to be a mask.
ghost use Rattle.std.specs.Prelude.{◌≡◌, ◌≤◌, ◌<◌, ◌+◌, ◌&&◌, Some, None, true, false, length, MatchOption};
ghost use Rattle.desk_common.specs.Limits.{most_word_bytes};
ghost use Rattle.dsn_mask.specs.MaskFault.{is_star_at, is_star_before, is_third_star, is_first_of_two, opens_qualifier};
ghost use Rattle.dsn_mask.specs.MaskFault.{closes_qualifier, is_misplaced_pair, is_stray_stop, fault_at, has_no_fault};
ghost use Rattle.dsn_mask.specs.MaskFault.{IsFirstFault};

use crate::MaskErr;
use crate::byte_class::is_mask_byte;
use desk_common::MAX_WORD;

fn is_star_at(bytes: &[u8], at: usize) -> bool
    ensures { result ≡ is_star_at bytes.now at }
{
    at < bytes.len() && bytes[at] == b'*'
}

fn is_star_before(bytes: &[u8], at: usize, back: usize) -> bool
    ensures { result ≡ is_star_before bytes.now at back }
{
    back <= at && is_star_at(bytes, at - back)
}

fn is_third_star(bytes: &[u8], at: usize) -> bool
    ensures { result ≡ is_third_star bytes.now at }
{
    is_star_at(bytes, at)
        && is_star_before(bytes, at, 1)
        && is_star_before(bytes, at, 2)
        && !is_star_before(bytes, at, 3)
}

fn is_first_of_two(bytes: &[u8], at: usize) -> bool
    requires { at < most_word_bytes }
    ensures { result ≡ is_first_of_two bytes.now at }
{
    is_star_at(bytes, at)
        && is_star_at(bytes, at + 1)
        && !is_star_at(bytes, at + 2)
        && !is_star_before(bytes, at, 1)
}

fn opens_qualifier(bytes: &[u8], at: usize) -> bool
    requires { at ≤ length bytes.now }
    ensures { result ≡ opens_qualifier bytes.now at }
{
    at == 0 || bytes[at - 1] == b'.'
}

fn closes_qualifier(bytes: &[u8], at: usize) -> bool
    requires { at ≤ length bytes.now }
    ensures { result ≡ closes_qualifier bytes.now at }
{
    at == bytes.len() || bytes[at] == b'.'
}

fn is_misplaced_pair(bytes: &[u8], at: usize, dotted: bool) -> bool
    requires { at < most_word_bytes }
    ensures { result ≡ is_misplaced_pair dotted bytes.now at }
{
    is_first_of_two(bytes, at)
        && !(dotted && opens_qualifier(bytes, at) && closes_qualifier(bytes, at + 2))
}

fn is_stray_stop(bytes: &[u8], at: usize) -> bool
    requires { at < length bytes.now }
    ensures { result ≡ is_stray_stop bytes.now at }
{
    bytes[at] == b'.' && (opens_qualifier(bytes, at) || at + 1 == bytes.len())
}

fn fault_at(bytes: &[u8], at: usize, dotted: bool) -> Option<MaskErr>
    requires inside { at < length bytes.now }
    requires short { at < most_word_bytes }
    ensures { result ≡ fault_at dotted bytes.now at }
{
    let place = at as u32;
    if is_third_star(bytes, at) {
        Some(MaskErr::ThreeStars(place))
    } else if is_misplaced_pair(bytes, at, dotted) {
        Some(MaskErr::StarsNotAlone(place))
    } else if !is_mask_byte(bytes[at]) {
        Some(MaskErr::BadByte(place))
    } else if dotted && is_stray_stop(bytes, at) {
        Some(MaskErr::EmptyPiece(place))
    } else {
        None
    }
}

/// The first fault of the text, if it has one: of a mask where it is dotted, else of a simple mask.
pub fn first_fault(bytes: &[u8], dotted: bool) -> Option<MaskErr>
    ensures { MatchOption result (has_no_fault dotted bytes.now ≡ true)
        (λ err. (has_no_fault dotted bytes.now ≡ false) × IsFirstFault dotted bytes.now err) }
{
    if bytes.is_empty() {
        return Some(MaskErr::Empty);
    }
    if bytes.len() > MAX_WORD {
        return Some(MaskErr::TooLong);
    }
    for at in 0..bytes.len() {
        if let Some(fault) = fault_at(bytes, at, dotted) {
            return Some(fault);
        }
    }
    None
}
