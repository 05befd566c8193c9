// A variable where it stands in a routine.
ghost use Rattle.std.specs.Prelude.{◌≡◌};
ghost use Rattle.acs_tree.specs.Variables.{variable_of};

use acs_tree::{Ref, Variable};
use std::marker::Model;

/// A variable where it stands, with its row of the table of variables, which is looked up once.
#[derive(Drop)]
pub struct Named<'a> {
    reference: &'a Ref,
    row: Option<Variable>,
}

impl<'a> Model for Named<'a> {
    ghost use Rattle.std.specs.Prelude.{◌≡◌};
    ghost use Rattle.acs_tree.specs.declared.routine.Ref.{Ref};
    ghost use Rattle.acs_tree.specs.Variables.{variable_of};

    ghost Value = { Ref };

    ghost view = { λ s. s.reference.now };

    ghost invariant = { λ s. s.row ≡ variable_of s.reference.now.name };
}

impl<'a> Named<'a> {
    pub fn new(reference: &'a Ref) -> Self
        ensures { result ≡ reference.now }
    {
        Named {
            reference,
            row: Variable::named(&reference.name),
        }
    }

    pub fn reference(&self) -> &Ref
        ensures { result.now ≡ self.now }
    {
        self.reference
    }

    pub fn row(&self) -> Option<Variable>
        ensures { result ≡ variable_of self.now.name }
    {
        self.row
    }
}

/// What a SELECT compares, if anything.
pub fn subject_of(reference: &Option<Ref>) -> Option<Named<'_>>
    ensures { result ≡ reference.now }
{
    match reference {
        None => None,
        Some(reference) => Some(Named::new(reference)),
    }
}
