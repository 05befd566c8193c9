//! Desks that can be shown.
ghost use Rattle.std.specs.Prelude.{◌≡◌, ◌<◌, ◌^◌, IfOk, length, map, option_map, List};
ghost use Rattle.std.specs.Option.{option_copied};
ghost use Rattle.sms_construct.specs.declared.entry.Entry.{Entry as Entered};
ghost use Rattle.desk_law.specs.Display.{shown_volume};
ghost use Rattle.desk_law.specs.State.{DeskState, set_named};
ghost use Rattle.desk_law.specs.Volumes.{groups_in, volumes_in};
ghost use Rattle.desk_state.specs.Following.{IsNextSet};

use deck_meaning::Config;
use dsn_mask::Dsn;
use sms_construct::{DataSet, Entry, StorGroup, VolRows};
use std::alloc::AllocError;

/// A desk whose state can be shown.
pub trait ShownDesk {
    /// It stands in this state.
    ghost stands: { Self → DeskState → Type 0 };

    /// Its journal.
    ghost journal: { Self → List Entered };

    /// Its journal.
    fn journal(&self) -> &[Entry]
        ensures { result.now ≡ journal self.now };

    /// How many activations there were, where something is active.
    fn activations(&self) -> Option<u64>
        ensures { (s : DeskState) → stands self.now s → result ≡ option_map (λ config. s.activations) s.active };

    /// The active configuration.
    fn config(&self) -> Option<&Config>
        ensures { (s : DeskState) → stands self.now s → option_copied result ≡ s.active };

    /// The storage groups of the active configuration, in byte order of their names.
    fn groups(&self) -> &[StorGroup]
        ensures { (s : DeskState) → stands self.now s → result.now ≡ groups_in s.active };

    /// All volumes of the active configuration as reports show them, or want of memory.
    fn volumes(&self) -> Result<VolRows, AllocError>
        ensures rows { IfOk result (λ rows. (s : DeskState) → stands self.now s →
            rows ≡ map (shown_volume s) (volumes_in s.active)) }
        ensures few { IfOk result (λ rows. length rows < 2 ^ 32) };

    /// The catalogued data set of this name.
    fn set(&self, dsn: &Dsn) -> Option<&DataSet>
        ensures { (s : DeskState) → stands self.now s →
            option_copied result ≡ set_named dsn.now s.sets };

    /// The first catalogued data set behind this name in the order of bytes; without a name, the first of all.
    fn set_after(&self, dsn: Option<&Dsn>) -> Option<&DataSet>
        ensures { (s : DeskState) → stands self.now s →
            IsNextSet (option_copied dsn.entry) s.sets (option_copied result) };
}
