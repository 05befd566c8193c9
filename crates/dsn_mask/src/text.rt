//! Bytes in an array of a fixed size.
ghost use Rattle.std.specs.Prelude.{◌≡◌, ◌≤◌, bytes_eq, length};
ghost use Rattle.std.specs.Cmp.Lexicographic.{slice_cmp};
ghost use Rattle.std.specs.Ordering.{nat_cmp};

use crate::byte_words::{are_equal, order};
use std::cmp::Ordering;
use std::marker::Model;

/// At most `N` bytes, and at most 255.
#[derive(Clone, Copy)]
pub struct Text<const N: usize> {
    buffer: [u8; N],
    count: u8,
}

impl<const N: usize> Model for Text<N> {
    ghost use Rattle.std.specs.Prelude.{List, ℕ, length, take, ◌≡◌, ◌≤◌};
    ghost use Rattle.dsn_mask.specs.Inner.Text.{padded};

    ghost Value = { List ℕ };

    ghost view = { λ s. take s.count s.buffer };

    ghost invariant = { λ s. (s.count ≡ length (take s.count s.buffer)) ×
        (s.buffer ≡ padded N (take s.count s.buffer)) };

    ghost inverse = { λ xs. record { buffer = padded N xs; count = length xs } };

    ghost use Rattle.dsn_mask.specs.Inner.TextFields.{fields_back};

    ghost inverse_ok = { λ a h. fields_back N a h.0 h.1 };
}

impl<const N: usize> Text<N> {
    /// These bytes, copied into the array.
    pub fn new(bytes: &[u8]) -> Self
        requires fits { length bytes.now ≤ N }
        requires small { length bytes.now ≤ 255 }
        ensures { result ≡ bytes.now }
    {
        let mut buffer = [0; N];
        buffer[..bytes.len()].copy_from_slice(bytes);
        Text {
            buffer,
            count: bytes.len() as u8,
        }
    }

    /// The bytes that were put in.
    pub fn bytes(&self) -> &[u8]
        ensures { result.now ≡ self.now }
    {
        &self.buffer[..self.count as usize]
    }

    /// Whether two texts are the same bytes.
    #[inline(always)]
    pub fn equals(&self, other: &Self) -> bool
        ensures { result ≡ bytes_eq self.now other.now }
    {
        self.count == other.count && are_equal(&self.buffer, &other.buffer)
    }

    /// The order of two texts by their bytes.
    pub fn order(&self, other: &Self) -> Ordering
        ensures { result ≡ slice_cmp nat_cmp self.now other.now }
    {
        let found = order(&self.buffer, &other.buffer);
        if found.is_ne() {
            return found;
        }
        self.count.cmp(&other.count)
    }
}
