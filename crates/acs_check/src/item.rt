// An operand where it stands in a routine.
ghost use Rattle.std.specs.Prelude.{◌≡◌};
ghost use Rattle.acs_check.specs.Inner.Rows.{row_of};

use acs_tree::{Operand, OperandForm, Variable};
use std::marker::Model;

/// An operand, with the row of the table of variables where it is a variable, which is looked up once.
#[derive(Drop)]
pub struct Item<'a> {
    operand: &'a Operand,
    row: Option<Variable>,
}

impl<'a> Model for Item<'a> {
    ghost use Rattle.std.specs.Prelude.{◌≡◌};
    ghost use Rattle.acs_tree.specs.declared.routine.Operand.{Operand};
    ghost use Rattle.acs_check.specs.Inner.Rows.{row_of};

    ghost Value = { Operand };

    ghost view = { λ s. s.operand.now };

    ghost invariant = { λ s. s.row ≡ row_of s.operand.now.form };
}

impl<'a> Item<'a> {
    pub fn new(operand: &'a Operand) -> Self
        ensures { result ≡ operand.now }
    {
        Item {
            operand,
            row: row_of(&operand.form),
        }
    }

    pub fn operand(&self) -> &Operand
        ensures { result.now ≡ self.now }
    {
        self.operand
    }

    pub fn form(&self) -> &OperandForm
        ensures { result.now ≡ self.now.form }
    {
        &self.operand.form
    }

    pub fn row(&self) -> Option<Variable>
        ensures { result ≡ row_of self.now.form }
    {
        self.row
    }
}

fn row_of(form: &OperandForm) -> Option<Variable>
    ensures { result ≡ row_of form.now }
{
    match form {
        OperandForm::Literal(_) | OperandForm::Word(_) => None,
        OperandForm::Var(reference) => Variable::named(&reference.name),
    }
}
