//! Keepers whose outside has to be made ready, and that load what it holds.
ghost use Rattle.std.specs.Prelude.{◌≡◌, ◌≤◌, ℕ, None, Option, IfErr, IfOk, IfSome, IsErrOf, OnOk};
ghost use Rattle.desk_common.specs.Causes.{Rose};
ghost use Rattle.sms_keeper.specs.declared.table.Table.{Table};
ghost use Rattle.sms_keeper.specs.Loading.{AreLoaded, NamesDamage, SameDamage, StaysDamaged};
ghost use Rattle.sms_keeper.specs.Told.{Stays};

use crate::keeper::{Keeper, KeeperErr};
use crate::load_err::LoadErr;
use crate::rows::Rows;

/// A keeper whose outside is made ready before the first commit, and whose tables can be loaded. A keeper whose rows
/// are known tells its tables, or in their place the first damaged row.
pub trait Stored: Keeper {
    /// The first damaged row, in the order of the tables and then of the keys, counted from 0 in its table.
    ghost damage: { Self → Option (Table × ℕ) };

    /// Makes the outside ready; the tables stay as they are.
    fn ready(&mut self) -> Result<(), KeeperErr>
        ensures kept { Stays (Self.told self.old) (Self.told self.new) }
        ensures damage_kept { SameDamage (damage self.old) (damage self.new) }
        ensures cause { IsErrOf result KeeperErr.Failed → Rose (Self.count self.old) (Self.count self.new) }
        ensures stands { (IsErrOf result KeeperErr.Failed → ⊥) → Self.count self.new ≡ Self.count self.old }
        ensures rises { Self.count self.old ≤ Self.count self.new };

    /// The tables, each in the order of its keys, or the first damaged row; the tables stay as they are.
    fn load(&mut self) -> Result<Rows, LoadErr>
        ensures loaded { IfOk result (λ rows. IfSome (Self.told self.new) (λ told. AreLoaded told rows)) }
        ensures sound { OnOk result (damage self.new ≡ None) }
        ensures damaged { IfErr result (NamesDamage (Self.told self.new) (damage self.new)) }
        ensures kept { Stays (Self.told self.old) (Self.told self.new) }
        ensures damage_kept { StaysDamaged (damage self.old) (damage self.new) }
        ensures cause { IsErrOf result LoadErr.Failed → Rose (Self.count self.old) (Self.count self.new) }
        ensures stands { (IsErrOf result LoadErr.Failed → ⊥) → Self.count self.new ≡ Self.count self.old }
        ensures rises { Self.count self.old ≤ Self.count self.new };
}
