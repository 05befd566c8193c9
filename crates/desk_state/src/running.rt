//! The running state of the desk.
ghost use Rattle.std.specs.Prelude.{◌≡◌, ◌<◌, ℕ, List, OnOk};
ghost use Rattle.desk_law.specs.State.{DeskState, start_of};
ghost use Rattle.desk_law.specs.Records.{empty_opening};
ghost use Rattle.desk_state.specs.Catalog.{set_in};
ghost use Rattle.desk_state.specs.Standing.{IsRunning};

use crate::blank_trace::BlankTrace;
use crate::catalog::Catalog;
use deck_meaning::Config;
use desk_common::Shared;
use sms_volumes::ActiveVolumes;
use std::alloc::{AllocError, Global};

/// The running state of the desk: how many activations there were, the active configuration with its volumes, and
/// the catalogued data sets; beside them the trace that most replies to ALLOC share.
#[derive(Drop)]
pub struct Running {
    pub alloc: Global,
    pub activations: u64,
    pub config: Option<Shared<Config>>,
    pub volumes: ActiveVolumes,
    pub catalog: Catalog,
    pub blank: BlankTrace,
}

impl Running {
    /// The state of a new desk: nothing is active, and nothing catalogued. It takes no memory.
    pub fn new(alloc: Global) -> Self
        ensures { IsRunning (start_of empty_opening) result }
    {
        Running {
            alloc,
            activations: 0,
            config: None,
            volumes: ActiveVolumes::none(alloc),
            catalog: Catalog::new(alloc),
            blank: BlankTrace::new(),
        }
    }

    /// Takes room for one more data set.
    pub fn reserve(&mut self) -> Result<(), AllocError>
        ensures room { OnOk result (0 < self.new.catalog.room) }
        ensures same { (s : DeskState) → IsRunning s self.old → IsRunning s self.new }
        ensures volumes { self.new.volumes ≡ self.old.volumes }
        ensures sets { (dsn : List ℕ) → set_in dsn self.new.catalog.sets ≡ set_in dsn self.old.catalog.sets }
    {
        self.catalog.reserve()
    }
}
