//! A line that is being written.
ghost use Rattle.std.specs.Prelude.{◌≡◌, ◌≤◌, ◌<◌, ◌+◌, ◌∷◌, ◌++◌, [], true, length, take};
ghost use Rattle.std.specs.List.{AllPass};
ghost use Rattle.desk_common.specs.Limits.{most_literal_bytes};
ghost use Rattle.dsn_mask.specs.Name.{is_literal_byte};

use desk_common::MAX_LITERAL;
use dsn_mask::Lit;
use std::marker::Model;

/// A line that is being written, which is cut to 110 bytes.
#[derive(Drop)]
pub struct Draft {
    buffer: [u8; MAX_LITERAL],
    count: usize,
}

impl Model for Draft {
    ghost use Rattle.std.specs.Prelude.{List, ℕ, take, ◌≤◌};
    ghost use Rattle.std.specs.List.{AllPass};
    ghost use Rattle.desk_common.specs.Limits.{most_literal_bytes};
    ghost use Rattle.dsn_mask.specs.Name.{is_literal_byte};

    ghost Value = { List ℕ };

    ghost view = { λ s. take s.count s.buffer };

    ghost invariant = { λ s. (s.count ≤ most_literal_bytes) × AllPass is_literal_byte (take s.count s.buffer) };
}

impl Draft {
    pub fn new() -> Self
        ensures { result ≡ [] }
    {
        Draft {
            buffer: [0; MAX_LITERAL],
            count: 0,
        }
    }

    fn room(&self) -> usize
        ensures { result + length self.now ≡ most_literal_bytes }
    {
        MAX_LITERAL - self.count
    }

    fn push(&mut self, byte: u8)
        requires room { length self.old < most_literal_bytes }
        requires form { is_literal_byte byte ≡ true }
        ensures { self.new ≡ self.old ++ byte ∷ [] }
    {
        self.buffer[self.count] = byte;
        self.count += 1;
    }

    /// Writes the bytes, as many as there is room for.
    pub fn put(&mut self, bytes: &[u8])
        requires { AllPass is_literal_byte bytes.now }
        ensures { self.new ≡ take most_literal_bytes (self.old ++ bytes.now) }
    {
        let kept = &bytes[..bytes.len().min(self.room())];
        for byte in kept {
            self.push(*byte);
        }
    }

    /// The line.
    pub fn text(&self) -> Lit
        ensures text { result ≡ self.now }
        ensures within { length self.now ≤ most_literal_bytes }
    {
        Lit::new(&self.buffer[..self.count]).unwrap()
    }
}
