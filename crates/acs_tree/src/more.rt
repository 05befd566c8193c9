// How many lines were not kept.
ghost use Rattle.std.specs.Prelude.{◌≡◌};
ghost use Rattle.acs_tree.specs.Slates.{more_of, one_more, with_more};

use crate::kind::Kind;

/// How many lines of each kind of routine were not kept.
#[derive(Clone, Copy, PartialEq, Eq)]
pub struct More {
    pub dataclas: u32,
    pub storclas: u32,
    pub mgmtclas: u32,
    pub storgrp: u32,
}

impl More {
    /// How many lines of that kind were not kept, as far as 32 bits count.
    pub fn of(&self, kind: Kind) -> u32
        ensures { result ≡ more_of kind self.now }
    {
        match kind {
            Kind::DataClas => self.dataclas,
            Kind::StorClas => self.storclas,
            Kind::MgmtClas => self.mgmtclas,
            Kind::StorGrp => self.storgrp,
        }
    }

    /// One more of that kind, as far as 32 bits count.
    pub fn counted(&self, kind: Kind) -> Self
        ensures { result ≡ with_more kind (one_more (more_of kind self.now)) self.now }
    {
        let mut more = *self;
        match kind {
            Kind::DataClas => more.dataclas = self.dataclas.saturating_add(1),
            Kind::StorClas => more.storclas = self.storclas.saturating_add(1),
            Kind::MgmtClas => more.mgmtclas = self.mgmtclas.saturating_add(1),
            Kind::StorGrp => more.storgrp = self.storgrp.saturating_add(1),
        }
        more
    }
}
