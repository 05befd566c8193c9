//! Routines that were checked.
ghost use Rattle.std.specs.Prelude.{◌≡◌};
ghost use Rattle.acs_tree.specs.Sound.{IsSound};

use crate::kind::Kind;
use crate::routine::Routine;
use std::marker::Model;

/// A routine that breaks no check, with its kind (docs/manual/acs-language.md, Checks).
#[derive(Drop)]
pub struct Checked {
    tree: Routine,
    kind: Kind,
}

impl Model for Checked {
    ghost use Rattle.acs_tree.specs.CheckedRoutine.{CheckedRoutine};
    ghost use Rattle.acs_tree.specs.contracts.routine.Form as form;
    ghost use Rattle.std.specs.Coded.{codes};

    ghost Value = { CheckedRoutine };

    ghost coded = { Prim.hlevel (codes, form.the_row.coded) };

    ghost view = { λ s. record { tree = s.tree; kind = s.kind } };

    ghost use Rattle.acs_tree.specs.Sound.{IsSound};

    ghost invariant = { λ s. IsSound s.tree s.kind };
}

impl Checked {
    /// A routine that is known to be sound.
    pub fn seal(tree: Routine, kind: Kind) -> Self
        requires { IsSound tree kind }
        ensures { result ≡ record { tree = tree; kind = kind } }
    {
        Checked { tree, kind }
    }

    /// The tree as it was checked.
    pub fn tree(&self) -> &Routine
        ensures tree { result.now ≡ self.now.tree }
        ensures sound { IsSound self.now.tree self.now.kind }
    {
        &self.tree
    }

    /// The kind of routine that it was checked as.
    pub fn kind(&self) -> Kind
        ensures { result ≡ self.now.kind }
    {
        self.kind
    }
}
