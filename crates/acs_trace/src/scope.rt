//! The body of the routine that runs.
ghost use Rattle.std.specs.Prelude.{◌≡◌, IfOk};
ghost use Rattle.acs_code.specs.Compiled.{filters_of};

use acs_code::Filters;
use acs_code::lists::Lists;
use acs_tree::Stmt;
use dsn_mask::FilterIndex;
use std::alloc::{AllocError, Global};
use std::marker::Model;

/// The body of the routine that runs, with its filter lists.
#[derive(Drop)]
pub struct Scope<'a> {
    lists: Lists<'a>,
    filters: Filters,
}

impl<'a> Model for Scope<'a> {
    ghost use Rattle.std.specs.Prelude.{List, ◌≡◌};
    ghost use Rattle.acs_tree.specs.declared.routine.Stmt.{Stmt};
    ghost use Rattle.acs_tree.specs.contracts.routine.Form as form;
    ghost use Rattle.std.specs.Coded.{codes};
    ghost use Rattle.acs_code.specs.Compiled.{filters_of};

    ghost Value = { List Stmt };

    ghost coded = { Prim.hlevel (codes, form.the_row.coded) };

    ghost view = { λ s. s.lists };

    ghost invariant = { λ s. s.filters ≡ filters_of s.lists };
}

impl<'a> Scope<'a> {
    pub fn new(alloc: Global, body: &'a [Stmt]) -> Result<Self, AllocError>
        ensures { IfOk result (λ scope. scope ≡ body.now) }
    {
        let lists = Lists::new(alloc, body)?;
        let filters = Lists::new(alloc, body)?.filters(alloc)?;
        Ok(Scope { lists, filters })
    }

    pub fn lists(&self) -> &Lists<'a>
        ensures { result.now ≡ self.now }
    {
        &self.lists
    }

    pub fn filters(&self) -> &[FilterIndex]
        ensures { result.now ≡ filters_of self.now }
    {
        self.filters.as_slice()
    }
}
