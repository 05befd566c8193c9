//! A keeper that fails where it is told to.
ghost use Rattle.std.specs.Prelude.{◌≡◌, ◌≤◌, ◌↔◌, ◌++◌, ◌∷◌, [], Some, IfErr, IfOk, OnOk, OnErr, IsErr, IsErrOf};
ghost use Rattle.std.specs.Prelude.{Contains};
ghost use Rattle.sms_keeper.specs.Loading.{AreLoaded};
ghost use Rattle.desk_common.specs.Causes.{Rose, counted};
ghost use Rattle.sms_keeper.specs.Tables.{rows_after};
ghost use Rattle.sms_keeper.specs.Faults.{faults_counted};
ghost use Rattle.sms_keeper.specs.Told.{Applies, Stays};

use crate::change::Change;
use crate::keeper::{Keeper, KeeperErr};
use crate::load_err::LoadErr;
use crate::mem_keeper::MemKeeper;
use crate::rows::Rows;
use crate::stored::Stored;
use std::alloc::{AllocError, Global};
use std::marker::Model;

/// A keeper in memory whose commits with the listed numbers, counted from 1, fail. A 0 in the list lets `ready`
/// fail.
#[derive(Drop)]
pub struct FaultKeeper {
    inner: MemKeeper,
    fails: Vec<u64>,
    calls: u64,
    faults: u64,
}

impl Model for FaultKeeper {
    ghost use Rattle.sms_keeper.specs.Faults.{FaultView};

    ghost Value = { FaultView };

    ghost view = { λ k. record { changes = k.inner; fails = k.fails.items; calls = k.calls; faults = k.faults } };
}

impl FaultKeeper {
    /// A keeper with empty tables that fails these commits.
    pub fn new(alloc: Global, fails: &[u64]) -> Result<Self, AllocError>
        ensures { IfOk result (λ keeper. keeper ≡ record { changes = []; fails = fails.now; calls = 0; faults = 0 }) }
    {
        let fails = Vec::from_slice(alloc, fails)?;
        Ok(FaultKeeper {
            inner: MemKeeper::new(alloc),
            fails,
            calls: 0,
            faults: 0,
        })
    }

    /// The tables.
    pub fn rows(&self) -> Result<Rows, AllocError>
        ensures { IfOk result (λ rows. rows ≡ rows_after self.now.changes) }
    {
        self.inner.rows()
    }

    fn fail(&mut self) -> Result<(), KeeperErr>
        ensures result { IsErrOf result KeeperErr.Failed }
        ensures changes { self.new.changes ≡ self.old.changes }
        ensures fails { self.new.fails ≡ self.old.fails }
        ensures calls { self.new.calls ≡ self.old.calls }
        ensures faults { self.new.faults ≡ counted self.old.faults }
        ensures rises { self.old.faults ≤ self.new.faults }
        ensures cause { Rose self.old.faults self.new.faults }
    {
        self.faults = self.faults.saturating_add(1);
        Err(KeeperErr::Failed)
    }
}

impl Keeper for FaultKeeper {
    ghost use Rattle.std.specs.Prelude.{Some};
    ghost use Rattle.sms_keeper.specs.Tables.{rows_after};

    ghost told = { λ k. Some (rows_after k.changes) };

    ghost count = { λ k. k.faults };

    fn commit(&mut self, change: &Change) -> Result<(), KeeperErr>
        ensures applied { OnOk result
            (Applies change.now (Some (rows_after self.old.changes)) (Some (rows_after self.new.changes))) }
        ensures kept { OnErr result (Stays (Some (rows_after self.old.changes)) (Some (rows_after self.new.changes))) }
        ensures cause { IsErrOf result KeeperErr.Failed → Rose self.old.faults self.new.faults }
        ensures stands { (IsErrOf result KeeperErr.Failed → ⊥) → self.new.faults ≡ self.old.faults }
        ensures rises { self.old.faults ≤ self.new.faults }
        ensures fails { IsErrOf result KeeperErr.Failed ↔ Contains self.old.fails (counted self.old.calls) }
        ensures faults { self.new.faults ≡ faults_counted self.old.faults result }
        ensures ok { OnOk result (self.new.changes ≡ self.old.changes ++ change.now ∷ []) }
        ensures err { OnErr result (self.new.changes ≡ self.old.changes) }
        ensures calls { self.new.calls ≡ counted self.old.calls }
        ensures listed { self.new.fails ≡ self.old.fails }
    {
        self.calls = self.calls.saturating_add(1);
        if self.fails.contains(&self.calls) {
            return self.fail();
        }
        self.inner.commit(change)
    }

    fn faults(&self) -> u64 {
        self.faults
    }
}

impl Stored for FaultKeeper {
    ghost use Rattle.std.specs.Prelude.{None};

    ghost damage = { λ k. None };

    fn ready(&mut self) -> Result<(), KeeperErr>
        ensures kept { Stays (Some (rows_after self.old.changes)) (Some (rows_after self.new.changes)) }
        ensures cause { IsErrOf result KeeperErr.Failed → Rose self.old.faults self.new.faults }
        ensures stands { (IsErrOf result KeeperErr.Failed → ⊥) → self.new.faults ≡ self.old.faults }
        ensures rises { self.old.faults ≤ self.new.faults }
        ensures err { IsErr result ↔ Contains self.old.fails 0 }
        ensures fails { IsErrOf result KeeperErr.Failed ↔ Contains self.old.fails 0 }
        ensures faults { self.new.faults ≡ faults_counted self.old.faults result }
        ensures changes { self.new.changes ≡ self.old.changes }
        ensures calls { self.new.calls ≡ self.old.calls }
        ensures listed { self.new.fails ≡ self.old.fails }
    {
        if self.fails.contains(&0) {
            return self.fail();
        }
        Ok(())
    }

    fn load(&mut self) -> Result<Rows, LoadErr>
        ensures loaded { IfOk result (AreLoaded (rows_after self.new.changes)) }
        ensures kept { Stays (Some (rows_after self.old.changes)) (Some (rows_after self.new.changes)) }
        ensures cause { IsErrOf result LoadErr.Failed → ⊥ }
        ensures rises { self.old.faults ≤ self.new.faults }
        ensures err { IfErr result (λ err. err ≡ LoadErr.NoMemory) }
        ensures unchanged { self.new ≡ self.old }
    {
        self.inner.load()
    }
}
