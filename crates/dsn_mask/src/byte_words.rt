//! Bytes that are compared eight at a time.
ghost use Rattle.std.specs.Prelude.{◌≡◌, ◌<◌, ◌≤◌, ◌+◌, ℕ, bytes_eq, drop, length, slice_index, take};
ghost use Rattle.std.specs.Cmp.Lexicographic.{slice_cmp};
ghost use Rattle.std.specs.Ordering.{nat_cmp};
ghost use Rattle.dsn_mask.specs.Inner.Words.{number_of};

use desk_common::are_same;
use std::cmp::Ordering;

/// The order of two texts of one length, known beforehand, by their bytes.
#[inline(always)]
pub fn order<const N: usize>(a: &[u8; N], b: &[u8; N]) -> Ordering
    ensures { result ≡ slice_cmp nat_cmp a.now b.now }
{
    let (one, other) = (&a[..], &b[..]);
    let mut place = 0;
    while N - place >= 8 {
        let found = word_at(one, place).cmp(&word_at(other, place));
        if found.is_ne() {
            return found;
        }
        place += 8;
    }
    // Behind the whole words most texts are filled up alike.
    if are_same(&one[place..], &other[place..]) {
        return Ordering::Equal;
    }
    one[place..].cmp(&other[place..])
}

/// Whether two texts of one length, known beforehand, are the same.
#[inline(always)]
pub fn are_equal<const N: usize>(a: &[u8; N], b: &[u8; N]) -> bool
    ensures { result ≡ bytes_eq a.now b.now }
{
    let (one, other) = (&a[..], &b[..]);
    let mut place = 0;
    while N - place >= 8 {
        if word_at(one, place) != word_at(other, place) {
            return false;
        }
        place += 8;
    }
    are_same(&one[place..], &other[place..])
}

// The number that eight bytes from a place on write, the first the greatest digit.
#[inline(always)]
fn word_at(bytes: &[u8], place: usize) -> u64
    requires { place + 8 ≤ length bytes.now }
    ensures value { result ≡ number_of (take 8 (drop place bytes.now)) }
    ensures bytes { (i : ℕ) → slice_index bytes.now i < 256 }
{
    u64::from_be_bytes([
        bytes[place],
        bytes[place + 1],
        bytes[place + 2],
        bytes[place + 3],
        bytes[place + 4],
        bytes[place + 5],
        bytes[place + 6],
        bytes[place + 7],
    ])
}
