// The lists that a request gives.
ghost use Rattle.std.specs.Prelude.{◌≡◌, ◌↔◌, IsTrue};
ghost use Rattle.acs_tree.specs.Inputs.{no_lists};

use crate::accounting::Accounting;
use crate::volumes::Volumes;

/// What a request gives in lists: accounting information and volumes.
#[derive(Clone, Copy)]
pub struct GivenLists {
    pub accounting: Accounting,
    pub volumes: Volumes,
}

impl GivenLists {
    /// What holds where none is given.
    pub fn new() -> Self
        ensures { result ≡ no_lists }
    {
        GivenLists {
            accounting: Accounting::new(),
            volumes: Volumes::new(),
        }
    }

    pub(crate) fn equals(&self, other: &Self) -> bool
        ensures { IsTrue result ↔ (self.now ≡ other.now) }
    {
        self.accounting.equals(&other.accounting) && self.volumes.equals(&other.volumes)
    }
}
