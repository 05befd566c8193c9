// What the read-write variables hold.
ghost use Rattle.std.specs.Prelude.{◌≡◌};
ghost use Rattle.acs_tree.specs.Inputs.{no_values};

use dsn_mask::{Names, Short};

/// What the read-write variables hold: a class each, or null, and the storage groups.
#[derive(Clone, Copy, PartialEq, Eq)]
pub struct Values {
    pub dataclas: Short,
    pub storclas: Short,
    pub mgmtclas: Short,
    pub groups: Names,
}

impl Values {
    /// No class and no group.
    pub fn new() -> Self
        ensures { result ≡ no_values }
    {
        Values {
            dataclas: Short::null(),
            storclas: Short::null(),
            mgmtclas: Short::null(),
            groups: Names::new(),
        }
    }
}
