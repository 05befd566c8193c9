// The constructs that a routine sets by name.
ghost use Rattle.std.specs.Prelude.{◌≡◌};
ghost use Rattle.toml.specs.View.{table_view};
ghost use Rattle.deck_meaning.specs.Layout.{has};
ghost use Rattle.deck_meaning.specs.Assigned.{assigned_by, assigned_in, assigned_in_whens, assigned_in_other};
ghost use Rattle.deck_meaning.specs.Assigned.{first_unknown, literal_name, literal_names};

use crate::rows::has_key;
use acs_tree::{Form, Operand, OperandForm, Stmt, When};
use desk_common::Boxed;
use dsn_mask::Name;
use toml::Table;

fn is_defined(name: &Name, constructs: &Table) -> bool
    ensures { result ≡ has name.now (table_view constructs.now) }
{
    match std::str::from_utf8(name.bytes()) {
        Ok(text) => has_key(constructs, text),
        Err(_) => false,
    }
}

fn literal_name(form: &OperandForm) -> Option<Name>
    ensures { result ≡ literal_name form.now }
{
    match form {
        OperandForm::Literal(text) => Name::new(text.bytes()),
        OperandForm::Word(_) | OperandForm::Var(_) => None,
    }
}

// The first name among the values of a SET that is no construct.
fn unknown_value(values: &[Operand], constructs: &Table) -> Option<Name>
    ensures { result ≡ first_unknown (table_view constructs.now) (literal_names values.now) }
{
    for value in values {
        if let Some(name) = literal_name(&value.form) {
            if !is_defined(&name, constructs) {
                return Some(name);
            }
        }
    }
    None
}

// The first name that a statement sets and that is no construct.
#[cycle(walk)]
#[tactic(auto, using(sms_deck::proofs::AssignedLemmas::form_steps))]
fn unknown_in(current: &Stmt, constructs: &Table) -> Option<Name>
    ensures { result ≡ first_unknown (table_view constructs.now) (assigned_in current.now) }
{
    match &current.form {
        Form::Put { values, .. } => unknown_value(values.as_slice(), constructs),
        Form::If { yes, otherwise, .. } => {
            let found = unknown_in(yes.get(), constructs);
            if found.is_some() {
                return found;
            }
            unknown_in_other(otherwise, constructs)
        }
        Form::Pick {
            whens,
            otherwise,
            ..
        } => {
            let found = unknown_in_whens(whens.as_slice(), constructs);
            if found.is_some() {
                return found;
            }
            unknown_in_other(otherwise, constructs)
        }
        Form::Do(body) => unknown_in_body(body.as_slice(), constructs),
        Form::Filt { .. } | Form::Write(_) | Form::Exit { .. } => None,
    }
}

#[cycle(walk)]
fn unknown_in_other(otherwise: &Option<Boxed<Stmt>>, constructs: &Table) -> Option<Name>
    ensures { result ≡ first_unknown (table_view constructs.now) (assigned_in_other otherwise.now) }
{
    match otherwise {
        None => None,
        Some(inner) => unknown_in(inner.get(), constructs),
    }
}

/// The first name that statements set and that is no construct.
#[cycle(walk)]
pub fn unknown_in_body(body: &[Stmt], constructs: &Table) -> Option<Name>
    ensures { result ≡ first_unknown (table_view constructs.now) (assigned_by body.now) }
{
    'statements: for inner in body {
        let found = unknown_in(inner, constructs);
        if found.is_some() {
            return found;
        }
    }
    None
}

#[cycle(walk)]
fn unknown_in_whens(whens: &[When], constructs: &Table) -> Option<Name>
    ensures { result ≡ first_unknown (table_view constructs.now) (assigned_in_whens whens.now) }
{
    'clauses: for when in whens {
        let found = unknown_in(when.body.get(), constructs);
        if found.is_some() {
            return found;
        }
    }
    None
}
