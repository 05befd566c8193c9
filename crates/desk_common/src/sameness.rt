//! Whether two short texts are the same.
ghost use Rattle.std.specs.Prelude.{◌≡◌, bytes_eq};

/// Whether these are the same bytes: one after another, which is right for names and words. Where the length of
/// `other` is known at the call, each byte costs one compare.
#[inline(always)]
pub fn are_same(one: &[u8], other: &[u8]) -> bool
    ensures { result ≡ bytes_eq one.now other.now }
{
    if one.len() != other.len() {
        return false;
    }
    let mut place = 0;
    while place < other.len() {
        if one[place] != other[place] {
            return false;
        }
        place += 1;
    }
    true
}
