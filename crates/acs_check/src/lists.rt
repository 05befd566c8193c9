// Filter lists and their entries.
ghost use Rattle.std.specs.Prelude.{◌≡◌};
ghost use Rattle.acs_tree.specs.FilterLists.{is_mask, is_simple, is_simple_entry, are_simple, is_simple_list, list_of};
ghost use Rattle.acs_check.specs.Inner.Marks.{is_list_named, is_simple_statement};

use acs_tree::{Form, Ident, Operand, OperandForm, Stmt};
use dsn_mask::{Mask, Simple};

pub fn is_mask(word: &Ident) -> bool
    ensures { result ≡ is_mask word.now }
{
    Mask::parse(word.bytes()).is_ok()
}

pub fn is_simple(word: &Ident) -> bool
    ensures { result ≡ is_simple word.now }
{
    Simple::parse(word.bytes()).is_ok()
}

pub fn is_list_named(name: &Ident, statement: &Stmt) -> bool
    ensures { result ≡ is_list_named name.now statement.now }
{
    match &statement.form {
        Form::Filt { name: other, .. } => other == name,
        _ => false,
    }
}

fn is_simple_entry(form: &OperandForm) -> bool
    ensures { result ≡ is_simple_entry form.now }
{
    match form {
        OperandForm::Literal(_) | OperandForm::Var(_) => true,
        OperandForm::Word(word) => is_simple(word),
    }
}

fn are_simple(entries: &[Operand]) -> bool
    ensures { result ≡ are_simple entries.now }
{
    entries.iter().all(|entry| is_simple_entry(&entry.form))
}

fn is_simple_form(form: &Form) -> bool
    ensures { result ≡ is_simple_list (list_of form.now) }
{
    match form {
        Form::Filt {
            include,
            exclude,
            ..
        } => are_simple(include.as_slice()) && are_simple(exclude.as_slice()),
        _ => true,
    }
}

pub fn is_simple_statement(statement: &Stmt) -> bool
    ensures { result ≡ is_simple_statement statement.now }
{
    is_simple_form(&statement.form)
}
