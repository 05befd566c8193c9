// The classes that a request names as defaults.
ghost use Rattle.std.specs.Prelude.{◌≡◌, ◌↔◌, [], IsTrue};

use dsn_mask::Short;

/// The classes that a request names as defaults: the variables of these names behind `DEF_`.
#[derive(Clone, Copy, PartialEq, Eq)]
pub struct Defaults {
    pub dataclas: Short,
    pub storclas: Short,
    pub mgmtclas: Short,
}

impl Defaults {
    pub(crate) fn new() -> Self
        ensures { result ≡ record { dataclas = []; storclas = []; mgmtclas = [] } }
    {
        Defaults {
            dataclas: Short::null(),
            storclas: Short::null(),
            mgmtclas: Short::null(),
        }
    }

    pub(crate) fn equals(&self, other: &Self) -> bool
        ensures { IsTrue result ↔ (self.now ≡ other.now) }
    {
        self == other
    }
}
