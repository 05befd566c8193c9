//! Keepers of the records.
ghost use Rattle.std.specs.Prelude.{◌≡◌, ◌≤◌, ℕ, Option, OnOk, OnErr, IsErrOf};
ghost use Rattle.desk_common.specs.Causes.{Rose};
ghost use Rattle.sms_keeper.specs.declared.rows.Rows.{Rows};
ghost use Rattle.sms_keeper.specs.Told.{Applies, Stays};
ghost use Rattle.sms_keeper.specs.Suits.{Suits};

use crate::change::Change;
use thiserror::Error;

/// Why a keeper doesn't make a change.
#[derive(Debug, Error, PartialEq, Eq, Clone, Copy)]
pub enum KeeperErr {
    /// The outside of the keeper failed.
    #[error("the keeper failed")]
    Failed,
    /// Memory was wanting.
    #[error("out of memory")]
    NoMemory,
}

/// Keeps the records of a desk. Its tables are a meaning that an implementation may tell; its faults are counted.
pub trait Keeper: Drop {
    /// The tables, where the keeper tells them.
    ghost told: { Self → Option Rows };

    /// How often it failed; the count stands still at its type's end.
    ghost count: { Self → ℕ };

    /// Makes the change, or leaves all tables as they are.
    fn commit(&mut self, change: &Change) -> Result<(), KeeperErr>
        requires { Suits change.now }
        ensures applied { OnOk result (Applies change.now (told self.old) (told self.new)) }
        ensures kept { OnErr result (Stays (told self.old) (told self.new)) }
        ensures cause { IsErrOf result KeeperErr.Failed → Rose (count self.old) (count self.new) }
        ensures stands { (IsErrOf result KeeperErr.Failed → ⊥) → count self.new ≡ count self.old }
        ensures rises { count self.old ≤ count self.new };

    /// How often it failed.
    fn faults(&self) -> u64
        ensures { result ≡ count self.now };
}
