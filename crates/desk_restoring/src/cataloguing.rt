//! The catalog of recorded data sets.
ghost use Rattle.std.specs.Prelude.{◌≡◌, ◌≤◌, ℕ, List, IfOk};
ghost use Rattle.desk_law.specs.State.{set_named};
ghost use Rattle.desk_law.specs.Lawful.{times_named};
ghost use Rattle.desk_state.specs.Catalog.{set_in};

use desk_common::Shared;
use desk_state::Catalog;
use sms_construct::DataSet;
use std::alloc::{AllocError, Global};

/// The data sets by their names, with one owner more each: none is copied.
pub fn catalog_of(alloc: Global, sets: &[Shared<DataSet>]) -> Result<Catalog, AllocError>
    requires { (dsn : List ℕ) → times_named dsn sets.now ≤ 1 }
    ensures { IfOk result (λ catalog. (dsn : List ℕ) → set_in dsn catalog.sets ≡ set_named dsn sets.now) }
{
    let mut catalog = Catalog::new(alloc);
    for set in sets {
        let shared = set.share()?;
        catalog.reserve()?;
        catalog.put(shared);
    }
    Ok(catalog)
}
