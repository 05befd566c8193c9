//! A keeper of nothing.
use sms_keeper::{Change, Keeper, KeeperErr};

/// A keeper that keeps nothing and tells no tables, for a desk that is asked and then let go.
#[derive(Drop)]
pub struct Nowhere;

impl Keeper for Nowhere {
    ghost use Rattle.std.specs.Prelude.{None};

    ghost told = { λ keeper. None };

    ghost count = { λ keeper. 0 };

    fn commit(&mut self, change: &Change) -> Result<(), KeeperErr> {
        let _change = change;
        Ok(())
    }

    fn faults(&self) -> u64 {
        0
    }
}
