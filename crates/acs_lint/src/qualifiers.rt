// The qualifiers of a text, one after another.
ghost use Rattle.std.specs.Prelude.{◌≡◌, ◌∷◌, option_copied};
ghost use Rattle.dsn_mask.specs.Qualifiers.{qualifiers_left, qualifiers_of};

use desk_common::bytes_before;

/// The first qualifier, and what is behind its full stop, if it has one.
#[derive(Clone, Copy)]
pub struct Cut<'a> {
    pub qualifier: &'a [u8],
    pub rest: Option<&'a [u8]>,
}

pub fn first_qualifier(bytes: &[u8]) -> Cut<'_>
    ensures { qualifiers_of bytes.now ≡ result.qualifier.now ∷ qualifiers_left (option_copied result.rest) }
{
    let count = bytes_before(b'.', bytes);
    if count < bytes.len() {
        Cut {
            qualifier: &bytes[..count],
            rest: Some(&bytes[count + 1..]),
        }
    } else {
        Cut {
            qualifier: bytes,
            rest: None,
        }
    }
}
