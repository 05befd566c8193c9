// The four kinds of routine.
ghost use Rattle.std.specs.Prelude.{◌≡◌, MatchOption};
ghost use Rattle.acs_tree.specs.declared.kind.Kind.{Kind as KindOf};
ghost use Rattle.acs_tree.specs.Variables.{name_of, rank_of};

/// What a routine chooses: a data class, a storage class, a management class or storage groups.
#[derive(Clone, Copy, Debug, PartialEq, Eq)]
pub enum Kind {
    DataClas,
    StorClas,
    MgmtClas,
    StorGrp,
}

impl Kind {
    /// The name of the variable that a routine of this kind sets, without its ampersand.
    pub fn name(self) -> &'static [u8]
        ensures { result.now ≡ name_of self }
    {
        match self {
            Kind::DataClas => b"DATACLAS",
            Kind::StorClas => b"STORCLAS",
            Kind::MgmtClas => b"MGMTCLAS",
            Kind::StorGrp => b"STORGRP",
        }
    }

    /// The order in which the routines run, from 0.
    pub fn rank(self) -> u8
        ensures { result ≡ rank_of self }
    {
        self as u8
    }

    /// The kind whose routines set the variable of that name.
    pub fn named(name: &[u8]) -> Option<Self>
        ensures { MatchOption result ((kind : KindOf) → name.now ≡ name_of kind → ⊥) (λ kind. name.now ≡ name_of kind) }
    {
        if name == Kind::DataClas.name() {
            Some(Kind::DataClas)
        } else if name == Kind::StorClas.name() {
            Some(Kind::StorClas)
        } else if name == Kind::MgmtClas.name() {
            Some(Kind::MgmtClas)
        } else if name == Kind::StorGrp.name() {
            Some(Kind::StorGrp)
        } else {
            None
        }
    }
}
