// The statements of a routine's body that stand before another, in which filter lists are found by
// their names.
ghost use Rattle.std.specs.Prelude.{◌≡◌, ◌<◌, true, length, map, take, slice_index_or};
ghost use Rattle.std.specs.List.{list_any};
ghost use Rattle.acs_tree.specs.declared.routine.Stmt.{Stmt};
ghost use Rattle.acs_tree.specs.FilterLists.{is_list, is_simple_list, list_named};
ghost use Rattle.acs_check.specs.Inner.Marks.{is_list_named, is_simple_statement};

use crate::lists::{is_list_named, is_simple_statement};
use crate::places::Places;
use acs_tree::{Ident, Stmt};
use std::marker::Model;

/// Statements, and of the first of them whether each has simple masks alone, so that the words of a
/// list are looked at once and not at each of its uses. And where lists are looked for first.
#[derive(Drop)]
pub struct Earlier<'a> {
    statements: &'a [Stmt],
    marks: &'a [bool],
    places: &'a Places,
}

impl<'a> Model for Earlier<'a> {
    ghost use Rattle.std.specs.Prelude.{List, ◌≡◌, length, map, take};
    ghost use Rattle.acs_tree.specs.declared.routine.Stmt.{Stmt};
    ghost use Rattle.acs_tree.specs.contracts.routine.Form as form;
    ghost use Rattle.std.specs.Coded.{codes};

    ghost Value = { List Stmt };

    ghost coded = { Prim.hlevel (codes, form.the_row.coded) };

    ghost use Rattle.acs_check.specs.Inner.Marks.{is_simple_statement};

    ghost view = { λ s. s.statements.now };

    ghost invariant = { λ s. s.marks.now ≡ map is_simple_statement (take (length s.marks.now) s.statements.now) };
}

impl<'a> Earlier<'a> {
    pub fn new(statements: &'a [Stmt], marks: &'a [bool], places: &'a Places) -> Self
        requires { marks.now ≡ map is_simple_statement (take (length marks.now) statements.now) }
        ensures { result ≡ statements.now }
    {
        Earlier {
            statements,
            marks,
            places,
        }
    }

    /// Whether one of the statements is a filter list of that name.
    #[tactic(auto, using(crate::proofs::NamedLemmas::any_is_list))]
    pub fn is_list(&self, name: &Ident) -> bool
        ensures { result ≡ is_list self.now name.now }
    {
        is_list_at(self.statements, self.places.of(name), name) || is_list(self.statements, name)
    }

    /// Whether the filter list of that name, if there is one, has simple masks alone.
    pub fn is_simple_list(&self, name: &Ident) -> bool
        ensures { result ≡ is_simple_list (list_named self.now name.now) }
    {
        is_simple_list(self.statements, self.marks, name)
    }
}

#[tactic(auto, using(crate::proofs::NamedLemmas::any_at))]
fn is_list_at(statements: &[Stmt], place: usize, name: &Ident) -> bool
    ensures { result ≡ true → list_any (is_list_named name.now) statements.now ≡ true }
{
    place < statements.len() && is_list_named(name, &statements[place])
}

fn is_list(statements: &[Stmt], name: &Ident) -> bool
    ensures { result ≡ list_any (is_list_named name.now) statements.now }
{
    statements
        .iter()
        .any(|statement| is_list_named(name, statement))
}

fn is_marked(statements: &[Stmt], marks: &[bool], index: usize) -> bool
    requires marked { marks.now ≡ map is_simple_statement (take (length marks.now) statements.now) }
    requires inside { index < length statements.now }
    ensures { (statement : Stmt) → statement ≡ slice_index_or statements.now index statement →
        result ≡ is_simple_statement statement }
{
    if index < marks.len() {
        marks[index]
    } else {
        is_simple_statement(&statements[index])
    }
}

fn is_simple_list(statements: &[Stmt], marks: &[bool], name: &Ident) -> bool
    requires { marks.now ≡ map is_simple_statement (take (length marks.now) statements.now) }
    ensures { result ≡ is_simple_list (list_named statements.now name.now) }
{
    for index in 0..statements.len() {
        if is_list_named(name, &statements[index]) {
            return is_marked(statements, marks, index);
        }
    }
    true
}
