//! A keeper in memory.
ghost use Rattle.std.specs.Prelude.{◌≡◌, ◌≤◌, ◌++◌, ◌∷◌, [], Some, IfErr, IfOk, IsOk, OnOk, OnErr, IsErrOf};
ghost use Rattle.sms_keeper.specs.Loading.{AreLoaded};
ghost use Rattle.sms_keeper.specs.Tables.{rows_after};
ghost use Rattle.sms_keeper.specs.Told.{Applies, Stays};

use crate::change::Change;
use crate::keeper::{Keeper, KeeperErr};
use crate::load_err::LoadErr;
use crate::packed_change::PackedChange;
use crate::replay::Replay;
use crate::rows::Rows;
use crate::stored::Stored;
use std::alloc::{AllocError, Global};
use std::marker::Model;

/// Keeps the records in memory, as the list of the changes that were made; its tables are what these come to. So on
/// average a commit takes the same time however many records there are, and it never fails but for want of memory.
#[derive(Drop)]
pub struct MemKeeper {
    alloc: Global,
    changes: Vec<PackedChange>,
}

impl Model for MemKeeper {
    ghost use Rattle.std.specs.Prelude.{List};
    ghost use Rattle.sms_keeper.specs.declared.change.Change.{Change};

    ghost Value = { List Change };

    ghost view = { λ k. k.changes.items };
}

impl MemKeeper {
    /// A keeper with empty tables. It takes no memory.
    pub fn new(alloc: Global) -> Self
        ensures { result ≡ [] }
    {
        MemKeeper {
            alloc,
            changes: Vec::new(alloc),
        }
    }

    /// The tables, which are made anew from the changes: a data set that a change puts or drops is looked for among
    /// all data sets.
    pub fn rows(&self) -> Result<Rows, AllocError>
        ensures { IfOk result (λ rows. rows ≡ rows_after self.now) }
    {
        Ok(self.replayed()?.into_rows())
    }

    // The tables, each in the order of its keys.
    fn ordered_rows(&self) -> Result<Rows, AllocError>
        ensures { IfOk result (AreLoaded (rows_after self.now)) }
    {
        let mut replay = self.replayed()?;
        replay.sort()?;
        Ok(replay.into_rows())
    }

    fn replayed(&self) -> Result<Replay, AllocError>
        ensures { IfOk result (λ replay. replay ≡ rows_after self.now) }
    {
        let mut replay = Replay::new(self.alloc);
        for change in &self.changes {
            replay.make(&change.change(self.alloc)?)?;
        }
        Ok(replay)
    }

    fn push(&mut self, change: &Change) -> Result<(), AllocError>
        ensures ok { OnOk result (self.new ≡ self.old ++ change.now ∷ []) }
        ensures err { OnErr result (self.new ≡ self.old) }
    {
        let packed = PackedChange::of(self.alloc, change)?;
        match self.changes.push(packed) {
            Ok(()) => Ok(()),
            Err(_) => Err(AllocError),
        }
    }
}

impl Keeper for MemKeeper {
    ghost use Rattle.std.specs.Prelude.{Some};
    ghost use Rattle.sms_keeper.specs.Tables.{rows_after};

    ghost told = { λ k. Some (rows_after k) };

    ghost count = { λ k. 0 };

    fn commit(&mut self, change: &Change) -> Result<(), KeeperErr>
        ensures applied { OnOk result (Applies change.now (Some (rows_after self.old)) (Some (rows_after self.new))) }
        ensures kept { OnErr result (Stays (Some (rows_after self.old)) (Some (rows_after self.new))) }
        ensures cause { IsErrOf result KeeperErr.Failed → ⊥ }
        ensures rises { 0 ≤ 0 }
        ensures ok { OnOk result (self.new ≡ self.old ++ change.now ∷ []) }
        ensures err { OnErr result (self.new ≡ self.old) }
    {
        match self.push(change) {
            Ok(()) => Ok(()),
            Err(_) => Err(KeeperErr::NoMemory),
        }
    }

    fn faults(&self) -> u64 {
        0
    }
}

impl Stored for MemKeeper {
    ghost use Rattle.std.specs.Prelude.{None};

    ghost damage = { λ k. None };

    fn ready(&mut self) -> Result<(), KeeperErr>
        ensures kept { Stays (Some (rows_after self.old)) (Some (rows_after self.new)) }
        ensures cause { IsErrOf result KeeperErr.Failed → ⊥ }
        ensures rises { 0 ≤ 0 }
        ensures ok { IsOk result }
        ensures unchanged { self.new ≡ self.old }
    {
        Ok(())
    }

    fn load(&mut self) -> Result<Rows, LoadErr>
        ensures loaded { IfOk result (AreLoaded (rows_after self.new)) }
        ensures kept { Stays (Some (rows_after self.old)) (Some (rows_after self.new)) }
        ensures cause { IsErrOf result LoadErr.Failed → ⊥ }
        ensures err { IfErr result (λ err. err ≡ LoadErr.NoMemory) }
        ensures unchanged { self.new ≡ self.old }
    {
        match self.ordered_rows() {
            Ok(rows) => Ok(rows),
            Err(_) => Err(LoadErr::NoMemory),
        }
    }
}
