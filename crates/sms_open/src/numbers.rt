//! A number for each volume.
ghost use Rattle.std.specs.Prelude.{◌≡◌, ℕ, List, OnOk, if◌then◌else◌, bytes_eq};
ghost use Rattle.sms_open.specs.Inner.Targets.{number_on};

use dsn_mask::Volser;
use ordered_index::OrderedIndex;
use std::alloc::{AllocError, Global};
use std::marker::Model;

/// A number for each volume serial, 0 where none was put.
#[derive(Drop)]
pub struct Numbers {
    numbers: OrderedIndex<Volser, u32>,
}

impl Model for Numbers {
    ghost use Rattle.std.specs.Prelude.{List, ℕ};

    ghost Value = { List (List ℕ × ℕ) };

    ghost view = { λ s. s.numbers.rows };
}

impl Numbers {
    /// Each number is 0. It takes no memory.
    pub fn new(alloc: Global) -> Self
        ensures { (volser : List ℕ) → number_on volser result ≡ 0 }
    {
        Numbers {
            numbers: OrderedIndex::new(alloc),
        }
    }

    /// The number of a volume. It takes no memory.
    pub fn get(&self, volser: &Volser) -> u32
        ensures { result ≡ number_on volser.now self.now }
    {
        self.numbers.get(volser).copied().unwrap_or(0)
    }

    /// Puts the number of a volume in place of the old one; or want of memory.
    pub fn put(&mut self, volser: Volser, number: u32) -> Result<(), AllocError>
        ensures { OnOk result ((other : List ℕ) →
            number_on other self.new ≡ (if bytes_eq volser other then number else number_on other self.old)) }
    {
        self.numbers.reserve()?;
        self.numbers.put(volser, number);
        Ok(())
    }
}
