//! The filter lists of a routine.
ghost use Rattle.std.specs.Prelude.{◌≡◌, ◌<◌, ◌^◌, IfOk, MatchOption};
ghost use Rattle.acs_tree.specs.Comparands.{Nothing, list_comparand};
ghost use Rattle.acs_tree.specs.FilterLists.{list_named};
ghost use Rattle.acs_code.specs.Compiled.{filters_in, filters_of};
ghost use Rattle.acs_code.specs.Rights.{IsFilterOf, IsNoneAmong, IsPlaceAmong, filter_place};

use crate::compiled_list::CompiledList;
use crate::filters::compiled;
use crate::instr::Filters;
use acs_tree::{Ident, Stmt};
use desk_common::Items;
use std::alloc::{AllocError, Global};
use std::marker::Model;

/// The filter lists that stand directly in a body, compiled, in their order.
#[derive(Drop)]
pub struct Lists<'a> {
    body: &'a [Stmt],
    compiled: Vec<CompiledList>,
}

impl<'a> Model for Lists<'a> {
    ghost use Rattle.std.specs.Prelude.{List, ◌≡◌};
    ghost use Rattle.acs_tree.specs.declared.routine.Stmt.{Stmt};
    ghost use Rattle.acs_tree.specs.contracts.routine.Form as form;
    ghost use Rattle.std.specs.Coded.{codes};
    ghost use Rattle.acs_code.specs.Compiled.{compiled_in};

    ghost Value = { List Stmt };

    ghost coded = { Prim.hlevel (codes, form.the_row.coded) };

    ghost view = { λ s. s.body.now };

    ghost invariant = { λ s. s.compiled.items ≡ compiled_in s.body.now };
}

impl<'a> Lists<'a> {
    pub fn new(alloc: Global, body: &'a [Stmt]) -> Result<Self, AllocError>
        ensures { IfOk result (λ lists. lists ≡ body.now) }
    {
        Ok(Lists {
            body,
            compiled: compiled(alloc, body)?,
        })
    }

    /// The place among the filters of the list of that name, for the whole data set name or for another text.
    pub fn filter_place(&self, whole: bool, name: &Ident) -> Option<u64>
        ensures { MatchOption result (list_comparand whole (list_named self.now name.now) ≡ Nothing)
            (IsFilterOf self.now whole name.now) }
    {
        match list_place(self.compiled.as_slice(), name) {
            None => None,
            Some(place) => Some(filter_place(whole, place)),
        }
    }

    /// The filters of the lists: of each first the one for the whole data set name, and then the other.
    pub fn filters(self, alloc: Global) -> Result<Filters, AllocError>
        ensures { IfOk result (λ filters. filters ≡ filters_of self.entry) }
    {
        filters(alloc, self.compiled)
    }
}

fn filter_place(whole: bool, place: u64) -> u64
    requires { place < 2 ^ 62 }
    ensures { result ≡ filter_place whole place }
{
    if whole { 2 * place } else { 2 * place + 1 }
}

fn list_place(lists: &[CompiledList], name: &Ident) -> Option<u64>
    ensures { MatchOption result (IsNoneAmong lists.now name.now) (IsPlaceAmong lists.now name.now) }
{
    for place in 0..lists.len() {
        if lists[place].name == *name {
            return Some(place as u64);
        }
    }
    None
}

fn filters(alloc: Global, lists: Vec<CompiledList>) -> Result<Filters, AllocError>
    ensures { IfOk result (λ filters. filters ≡ filters_in lists.items) }
{
    let mut filters = Items::new(alloc);
    for list in lists {
        let CompiledList { dotted, plain, .. } = list;
        filters.push(dotted)?;
        filters.push(plain)?;
    }
    Ok(filters)
}
