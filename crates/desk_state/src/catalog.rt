//! The catalogued data sets.
ghost use Rattle.std.specs.Prelude.{◌≡◌, ◌<◌, [], None, Some, List, ℕ, OnOk, bytes_eq, if◌then◌else◌};
ghost use Rattle.std.specs.Option.{option_copied};
ghost use Rattle.desk_state.specs.Catalog.{IsCatalog, next_in, set_in};

use desk_common::Shared;
use dsn_mask::Dsn;
use ordered_index::OrderedIndex;
use sms_construct::DataSet;
use std::alloc::{AllocError, Global};
use std::marker::Model;

/// The catalogued data sets, in the order of their names' bytes.
#[derive(Drop)]
pub struct Catalog {
    sets: OrderedIndex<Dsn, Shared<DataSet>>,
}

impl Model for Catalog {
    ghost use Rattle.desk_state.specs.Catalog.{CatalogView, IsCatalog};

    ghost Value = { CatalogView };

    ghost view = { λ c. record { sets = c.sets.rows; room = c.sets.room } };

    ghost invariant = { λ c. IsCatalog c.sets.rows };
}

impl Catalog {
    /// An empty catalog. It takes no memory.
    pub fn new(alloc: Global) -> Self
        ensures { result.sets ≡ [] }
    {
        Catalog {
            sets: OrderedIndex::new(alloc),
        }
    }

    /// The data set of this name.
    pub fn get(&self, dsn: &Dsn) -> Option<&Shared<DataSet>>
        ensures { option_copied result ≡ set_in dsn.now self.now.sets }
    {
        self.sets.get(dsn)
    }

    /// The first data set behind a name, or the first of all.
    pub fn next(&self, dsn: Option<&Dsn>) -> Option<&Shared<DataSet>>
        ensures next { option_copied result ≡ next_in (option_copied dsn.entry) self.now.sets }
        ensures sorted { IsCatalog self.now.sets }
    {
        let row = match dsn {
            Some(dsn) => self.sets.after(dsn),
            None => self.sets.first(),
        };
        match row {
            Some((_, set)) => Some(set),
            None => None,
        }
    }

    /// Takes room for one more data set.
    pub fn reserve(&mut self) -> Result<(), AllocError>
        ensures room { OnOk result (0 < self.new.room) }
        ensures same { (dsn : List ℕ) → set_in dsn self.new.sets ≡ set_in dsn self.old.sets }
    {
        self.sets.reserve()
    }

    /// Puts a data set in place of the one of its name, or adds it. It takes no memory.
    pub fn put(&mut self, set: Shared<DataSet>)
        requires { 0 < self.old.room }
        ensures { (dsn : List ℕ) →
            set_in dsn self.new.sets ≡ (if bytes_eq set.dsn dsn then Some set else set_in dsn self.old.sets) }
    {
        let dsn = set.get().dsn;
        self.sets.put(dsn, set);
    }

    /// Drops the data set of this name.
    pub fn remove(&mut self, dsn: &Dsn)
        ensures { (other : List ℕ) →
            set_in other self.new.sets ≡ (if bytes_eq dsn.now other then None else set_in other self.old.sets) }
    {
        self.sets.remove(dsn);
    }
}
