//! Texts as qualifiers between full stops.
ghost use Rattle.std.specs.Prelude.{◌≡◌, ◌≤◌, ◌+◌, ◌∷◌, length, Some, option_copied, MatchOption};
ghost use Rattle.std.specs.List.{slice_get};
ghost use Rattle.desk_common.specs.Limits.{most_value_bytes};
ghost use Rattle.dsn_mask.specs.Qualifiers.{qualifiers_of, qualifiers_left};

use desk_common::bytes_before;

/// The first qualifier, and what is behind its full stop, if it has one.
#[derive(Clone, Copy)]
pub struct Cut<'a> {
    pub qualifier: &'a [u8],
    pub rest: Option<&'a [u8]>,
}

pub fn first_qualifier(bytes: &[u8]) -> Cut<'_>
    ensures split { qualifiers_of bytes.now ≡ result.qualifier.now ∷ qualifiers_left (option_copied result.rest) }
    ensures count { MatchOption result.rest (length bytes.now ≡ length result.qualifier.now)
        (λ rest. length bytes.now ≡ length result.qualifier.now + 1 + length rest.now) }
{
    let count = bytes_before(b'.', bytes);
    if count < bytes.len() {
        Cut {
            qualifier: &bytes[..count],
            rest: Some(&bytes[count + 1..]),
        }
    } else {
        Cut {
            qualifier: bytes,
            rest: None,
        }
    }
}

pub fn count_qualifiers(bytes: &[u8]) -> usize
    requires { length bytes.now ≤ most_value_bytes }
    ensures { result ≡ length (qualifiers_of bytes.now) }
{
    let mut text = bytes;
    let mut count = 1;
    'walk: loop {
        let Some(rest) = first_qualifier(text).rest else {
            return count;
        };
        count += 1;
        text = rest;
    }
}

/// The qualifier at this place, counted from 0.
pub fn qualifier_at(bytes: &[u8], place: usize) -> Option<&[u8]>
    ensures { MatchOption result (length (qualifiers_of bytes.entry.now) ≤ place)
        (λ found. slice_get (qualifiers_of bytes.entry.now) place ≡ Some found.now) }
{
    let mut text = bytes;
    let mut left = place;
    'walk: while left > 0 {
        text = first_qualifier(text).rest?;
        left -= 1;
    }
    Some(first_qualifier(text).qualifier)
}
