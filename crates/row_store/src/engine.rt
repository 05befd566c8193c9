// What a store in memory holds.
ghost use Rattle.std.specs.Prelude.{◌≡◌, [], IfOk, OnErr, OnOk, false, true};
ghost use Rattle.row_store.specs.Contents.{are_absent, contents_after};
ghost use Rattle.row_store.specs.Histories.{IsRule};
ghost use Rattle.row_store.specs.Outcomes.{IsLater, Leaves, Sees};
ghost use Rattle.row_store.specs.declared.contents.Contents.{Contents as Held};

use crate::contents::Contents;
use crate::making::{are_absent, contents_after, put_row};
use crate::row::{Row, Rows, copied_rows};
use crate::store::Outcome;
use crate::transaction::Transaction;
use crate::turn::{Ending, Happening};
use desk_common::Items;
use std::alloc::{AllocError, Global};

/// What a store in memory holds, and what may come.
#[derive(Drop)]
pub struct Engine {
    /// What was seen of it last.
    pub seen: Contents,
    /// What it holds.
    pub held: Contents,
    /// What the changes to which no answer came make of it, where they are made.
    pub late: Items<Contents>,
    /// Another desk has the prefix.
    pub has_other: bool,
}

impl Engine {
    ghost use Rattle.row_store.specs.Inner.Engines.{CanBeMade, Happens, Stands};
    ghost use Rattle.row_store.specs.Memory.{MayHold};

    // One of the changes to which no answer came is made now, if it can be.
    #[tactic(auto, using(crate::proofs::EngineLemmas::late_happens, crate::proofs::EngineLemmas::stays))]
    fn make_late(&mut self, alloc: Global, place: usize)
        requires { Stands self.old }
        ensures { Happens self.old self.new }
    {
        if self.held.guard != self.seen.guard {
            return;
        }
        if place >= self.late.len() {
            return;
        }
        self.held = self.late.remove(place);
        self.late = Items::new(alloc);
    }

    // Another desk takes the prefix.
    #[tactic(auto, using(crate::proofs::EngineLemmas::taken_happens, crate::proofs::EngineLemmas::stays))]
    fn be_taken(&mut self)
        requires { Stands self.old }
        ensures { Happens self.old self.new }
    {
        let Some(next) = self.held.guard.claimed() else {
            return;
        };
        self.held.guard = next;
        self.has_other = true;
    }

    // The desk that took the prefix puts a row.
    #[tactic(auto, using(crate::proofs::EngineLemmas::put_happens, crate::proofs::EngineLemmas::stays))]
    fn be_put(&mut self, alloc: Global, row: &Row)
        requires { Stands self.old }
        ensures { Happens self.old self.new }
    {
        if !self.has_other {
            return;
        }
        let Some(next) = self.held.guard.following() else {
            return;
        };
        let Ok(rows) = rows_with(alloc, row, &self.held.rows) else {
            return;
        };
        self.held = Contents { guard: next, rows };
    }

    // Something happens in it.
    #[tactic(auto, using(crate::proofs::EngineLemmas::stays))]
    pub fn happen(&mut self, alloc: Global, happening: &Happening)
        requires { Stands self.old }
        ensures { Happens self.old self.new }
    {
        match happening {
            Happening::Nothing => (),
            Happening::Late(place) => self.make_late(alloc, *place),
            Happening::Taken => self.be_taken(),
            Happening::Put(row) => self.be_put(alloc, row),
        }
    }

    // What it holds is seen.
    #[tactic(auto, using(crate::proofs::EngineLemmas::seen_later, crate::proofs::EngineLemmas::sees_now, crate::proofs::EngineLemmas::shown_stands, crate::proofs::EngineLemmas::shown_may))]
    fn see(&mut self, alloc: Global) -> Result<(), AllocError>
        requires { Stands self.old }
        ensures stands { Stands self.new }
        ensures ok { OnOk result (self.new.seen ≡ self.old.held) }
        ensures err { OnErr result (self.new ≡ self.old) }
        ensures may { (c : Held) → MayHold self.new c → MayHold self.old c }
        ensures later { (c : Held) → MayHold self.new c → OnOk result (IsLater self.new.seen c) }
    {
        if self.seen.guard == self.held.guard {
            return Ok(());
        }
        self.seen = self.held.copy(alloc)?;
        self.late = Items::new(alloc);
        Ok(())
    }

    /// Shows what it holds.
    pub fn look(&mut self, alloc: Global) -> Result<Contents, AllocError>
        requires { Stands self.old }
        ensures stands { Stands self.new }
        ensures shown { IfOk result (λ found. (found ≡ self.old.held) × (self.new.seen ≡ found)) }
        ensures err { OnErr result (self.new ≡ self.old) }
        ensures may { (c : Held) → MayHold self.new c → MayHold self.old c }
        ensures later { (c : Held) → MayHold self.new c → OnOk result (IsLater self.new.seen c) }
    {
        let copy = self.held.copy(alloc)?;
        match self.see(alloc) {
            Ok(()) => Ok(copy),
            Err(err) => Err(err),
        }
    }

    // Whether the transaction can be made now.
    fn can_make(&self, transaction: &Transaction) -> bool
        ensures yes { result ≡ true → CanBeMade transaction.now self.now.held }
        ensures no { result ≡ false → self.now.held.guard ≡ transaction.now.expects →
            are_absent transaction.now.absent self.now.held.rows ≡ false }
    {
        self.held.guard == transaction.expects
            && are_absent(transaction.absent.as_slice(), self.held.rows.as_slice())
    }

    // Keeps what a change comes to that may be made later.
    #[tactic(auto, using(crate::proofs::EngineLemmas::waiting_stands, crate::proofs::EngineLemmas::waiting_leaves))]
    fn wait(&mut self, transaction: &Transaction, after: Contents) -> Outcome
        requires stands { Stands self.old }
        requires rule { IsRule transaction.now }
        requires expected { transaction.now.expects ≡ self.old.seen.guard }
        requires can { CanBeMade transaction.now self.old.held }
        requires after { after ≡ contents_after transaction.now self.old.held }
        ensures stands { Stands self.new }
        ensures sees { Sees self.old.seen transaction.now result self.new.seen }
        ensures leaves { (c : Held) → MayHold self.new c → Leaves (MayHold self.old) transaction.now result c }
    {
        match self.late.push(after) {
            Ok(()) => Outcome::Unknown,
            Err(_) => Outcome::Failed,
        }
    }

    // Holds what a change comes to, and shows it.
    #[tactic(auto, using(crate::proofs::EngineLemmas::done_stands, crate::proofs::EngineLemmas::done_sees, crate::proofs::EngineLemmas::done_leaves))]
    fn show(&mut self, alloc: Global, transaction: &Transaction, after: Contents) -> Outcome
        requires stands { Stands self.old }
        requires expected { transaction.now.expects ≡ self.old.seen.guard }
        requires can { CanBeMade transaction.now self.old.held }
        requires after { after ≡ contents_after transaction.now self.old.held }
        ensures stands { Stands self.new }
        ensures sees { Sees self.old.seen transaction.now result self.new.seen }
        ensures leaves { (c : Held) → MayHold self.new c → Leaves (MayHold self.old) transaction.now result c }
    {
        let Ok(seen) = after.copy(alloc) else {
            return Outcome::Failed;
        };
        self.seen = seen;
        self.held = after;
        self.late = Items::new(alloc);
        self.has_other = false;
        Outcome::Done
    }

    // Makes a transaction that can be made, as the ending says.
    #[tactic(auto, using(crate::proofs::EngineLemmas::made_stands, crate::proofs::EngineLemmas::made_leaves))]
    fn make(&mut self, alloc: Global, transaction: &Transaction, ending: Ending) -> Outcome
        requires stands { Stands self.old }
        requires rule { IsRule transaction.now }
        requires expected { transaction.now.expects ≡ self.old.seen.guard }
        requires can { CanBeMade transaction.now self.old.held }
        ensures stands { Stands self.new }
        ensures sees { Sees self.old.seen transaction.now result self.new.seen }
        ensures leaves { (c : Held) → MayHold self.new c → Leaves (MayHold self.old) transaction.now result c }
    {
        let Ok(after) = contents_after(alloc, transaction, &self.held) else {
            return Outcome::Failed;
        };
        match ending {
            Ending::Answered => self.show(alloc, transaction, after),
            Ending::Waits => self.wait(transaction, after),
            Ending::Made => {
                self.held = after;
                Outcome::Unknown
            }
            Ending::Dropped => Outcome::Unknown,
            Ending::Fails => Outcome::Failed,
        }
    }

    // Makes a transaction, as the ending says.
    #[tactic(auto, using(crate::proofs::EngineLemmas::refused_leaves))]
    pub fn write(&mut self, alloc: Global, transaction: &Transaction, ending: Ending) -> Outcome
        requires stands { Stands self.old }
        requires rule { IsRule transaction.now }
        requires expected { transaction.now.expects ≡ self.old.seen.guard }
        ensures stands { Stands self.new }
        ensures sees { Sees self.old.seen transaction.now result self.new.seen }
        ensures leaves { (c : Held) → MayHold self.new c → Leaves (MayHold self.old) transaction.now result c }
    {
        if self.can_make(transaction) {
            return self.make(alloc, transaction, ending);
        }
        match ending {
            Ending::Answered => Outcome::Refused,
            Ending::Fails => Outcome::Failed,
            Ending::Made | Ending::Waits | Ending::Dropped => Outcome::Unknown,
        }
    }
}

// The rows with one more in place of the one of its key.
fn rows_with(alloc: Global, row: &Row, rows: &Rows) -> Result<Rows, AllocError> {
    let mut copies = copied_rows(alloc, rows.as_slice())?;
    put_row(alloc, row, &mut copies)?;
    Ok(Items::from_vec(copies))
}
