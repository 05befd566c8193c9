// Classes that a configuration has.
ghost use Rattle.std.specs.Prelude.{◌≡◌, List, ℕ};
ghost use Rattle.sms_construct.specs.declared.alloc.Alloc.{Alloc as Allocation};
ghost use Rattle.desk_law.specs.Classification.{classes_of};
ghost use Rattle.sms_classes.specs.Known.{AreKnown};

use crate::leaving::leave_others;
use deck_meaning::Config;
use sms_construct::Stop;

/// Tells a proof that the classes of a classification that is done are ones that the configuration has.
pub fn classes_are_known(config: &Config)
    ensures { (job : List ℕ) (alloc : Allocation) → (classes_of config.now job alloc).stop ≡ Stop.Done →
        AreKnown config.now (classes_of config.now job alloc).values }
{
    leave_others(config);
}
