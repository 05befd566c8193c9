//! A desk's hold on a prefix.
ghost use Rattle.std.specs.Prelude.{◌≡◌, Err, IfErr, IfOk, IsErrOf, IsTrue, OnErr, OnOk, true, false};
ghost use Rattle.row_store.specs.declared.contents.Contents.{Contents};
ghost use Rattle.row_store.specs.Contents.{IsTaken};
ghost use Rattle.row_store.specs.Holds.{IsLeft, IsMadeAlone, IsSeen, Stood, is_closed};
ghost use Rattle.row_store.specs.Inner.Holding.{AwaitsNone, IsClaimed, IsPassedLeft};
ghost use Rattle.row_store.specs.declared.standing.Standing.TheVariants.{Free, Taken};

use crate::contents::Contents;
use crate::guard::Guard;
use crate::passing::{Passed, pass_over};
use crate::row::Rows;
use crate::sending::{Sent, send};
use crate::standing::Standing;
use crate::store::{Outcome, Store, StoreErr};
use crate::transaction::{Keys, Transaction};
use crate::write::Writes;
use std::alloc::Global;
use std::marker::Model;

/// Why a change isn't acknowledged.
#[derive(Clone, Copy, Debug, PartialEq, Eq)]
pub enum HoldErr {
    /// The engine failed, or no answer came; a later change may be made.
    Failed,
    /// The hold is lost; no later change is made.
    Lost,
}

/// A desk's hold on a prefix: it makes changes of its rows, one transaction a change, until another desk takes the
/// prefix.
#[derive(Drop)]
pub struct Hold<S: Store> {
    alloc: Global,
    store: S,
    guard: Guard,
    standing: Standing,
}

impl<S: Store> Model for Hold<S> {
    ghost use Rattle.std.specs.Prelude.{IsTrue};
    ghost use Rattle.row_store.specs.Holds.{HoldView};
    ghost use Rattle.row_store.specs.Inner.Holding.{Knows};

    ghost Value = { HoldView S };

    ghost view = { λ h. record { store = h.store; standing = h.standing } };

    ghost invariant = { λ h. IsTrue (S.is_true h.store) → Knows h.standing h.guard (S.seen h.store) (S.may h.store) };
}

impl<S: Store> Hold<S> {
    /// Takes the prefix, and shows its rows as they are then; the store where it can't. Each desk that had the prefix
    /// has lost it then, and may have lost it where the rows aren't shown.
    pub fn take(alloc: Global, store: S) -> Result<(Self, Rows), (S, StoreErr)>
        ensures truth { IfOk result (λ taken. IsTrue (S.is_true taken.0.store) → IsTrue (S.is_true store)) }
        ensures rows { IfOk result (λ taken. (S.seen taken.0.store).rows ≡ taken.1) }
        ensures stood { IfOk result (λ taken. IsTrue (S.is_true taken.0.store) → Stood (S.may store) taken.1) }
        ensures free { IfOk result (λ taken. taken.0.standing ≡ Free) }
        ensures left { IfOk result (λ taken. IsTrue (S.is_true taken.0.store) → (c : Contents) →
            S.may taken.0.store c → IsSeen (S.seen taken.0.store) c) }
        ensures err { IfErr result (λ left. IsTrue (S.is_true left.0) → IsTrue (S.is_true store)) }
    {
        let mut store = store;
        match begin(alloc, &mut store) {
            Ok(Contents { guard, rows }) => {
                let hold = Hold {
                    alloc,
                    store,
                    guard,
                    standing: Standing::Free,
                };
                Ok((hold, rows))
            }
            Err(err) => Err((store, err)),
        }
    }

    // Settles the change to which no answer came, where there is one.
    fn settle(&mut self)
        ensures truth { IsTrue (S.is_true self.new.store) → IsTrue (S.is_true self.old.store) }
        ensures rows { IsTrue (S.is_true self.new.store) → is_closed self.new.standing ≡ false →
            (S.seen self.new.store).rows ≡ (S.seen self.old.store).rows }
        ensures epoch { IsTrue (S.is_true self.new.store) → is_closed self.new.standing ≡ false →
            (S.seen self.new.store).guard.epoch ≡ (S.seen self.old.store).guard.epoch }
        ensures taken { IsTrue (S.is_true self.new.store) → is_closed self.old.standing ≡ false →
            self.new.standing ≡ Taken → (c : Contents) → S.may self.new.store c →
            IsTaken (S.seen self.old.store).guard c }
        ensures alone { IsTrue (S.is_true self.new.store) → self.new.standing ≡ Free → (c : Contents) →
            S.may self.new.store c → IsSeen (S.seen self.new.store) c }
        ensures left { IsTrue (S.is_true self.new.store) → (c : Contents) → S.may self.new.store c →
            IsPassedLeft (S.seen self.old.store) (S.may self.old.store) c }
        ensures closed { is_closed self.old.standing ≡ true → self.new ≡ self.old }
    {
        if let Standing::Waiting = self.standing {
            match pass_over(self.alloc, &mut self.store, self.guard) {
                Passed::Free(guard) => {
                    self.guard = guard;
                    self.standing = Standing::Free;
                }
                Passed::Waiting => (),
                Passed::Behind => self.standing = Standing::Behind,
                Passed::Taken => self.standing = Standing::Taken,
            }
        }
    }

    // Makes the change in one transaction, where no other is unsettled.
    fn make(&mut self, absent: Keys, writes: Writes) -> Result<(), HoldErr>
        requires { self.old.standing ≡ Free }
        ensures truth { IsTrue (S.is_true self.new.store) → IsTrue (S.is_true self.old.store) }
        ensures made { IsTrue (S.is_true self.new.store) → OnOk result (IsMadeAlone (S.seen self.old.store)
            (S.seen self.new.store) (S.may self.new.store) absent writes) }
        ensures kept { IsTrue (S.is_true self.new.store) → OnErr result (is_closed self.new.standing ≡ false →
            (S.seen self.new.store).rows ≡ (S.seen self.old.store).rows) }
        ensures free { OnOk result (self.new.standing ≡ Free) }
        ensures failed { IsErrOf result HoldErr.Failed → is_closed self.new.standing ≡ false }
        ensures lost { IsErrOf result HoldErr.Lost → is_closed self.new.standing ≡ true }
        ensures taken { IsTrue (S.is_true self.new.store) → self.new.standing ≡ Taken →
            (c : Contents) → S.may self.new.store c → IsTaken (S.seen self.old.store).guard c }
        ensures alone { IsTrue (S.is_true self.new.store) → self.new.standing ≡ Free → (c : Contents) →
            S.may self.new.store c → IsSeen (S.seen self.new.store) c }
        ensures left { IsTrue (S.is_true self.new.store) → (c : Contents) → S.may self.new.store c →
            IsLeft (S.seen self.old.store) (S.may self.old.store) absent writes c }
    {
        let Some(next) = self.guard.following() else {
            return Err(HoldErr::Failed);
        };
        let change = Transaction {
            expects: self.guard,
            next,
            absent,
            writes,
        };
        match send(&mut self.store, &change) {
            Sent::Made => {
                self.guard = next;
                Ok(())
            }
            Sent::Unmade => Err(HoldErr::Failed),
            Sent::Unknown => {
                self.standing = Standing::Waiting;
                Err(HoldErr::Failed)
            }
            Sent::Taken => {
                self.standing = Standing::Taken;
                Err(HoldErr::Lost)
            }
        }
    }

    /// Makes the change, in one transaction under the guard, or leaves the rows as they are; it is made only where no
    /// row has one of the absent keys. A change to which no answer came is settled before any later one: it is passed
    /// over, so that it can't be made any more, or the hold is lost.
    pub fn commit(&mut self, absent: Keys, writes: Writes) -> Result<(), HoldErr>
        ensures truth { IsTrue (S.is_true self.new.store) → IsTrue (S.is_true self.old.store) }
        ensures made { IsTrue (S.is_true self.new.store) → OnOk result (IsMadeAlone (S.seen self.old.store)
            (S.seen self.new.store) (S.may self.new.store) absent writes) }
        ensures kept { IsTrue (S.is_true self.new.store) → OnErr result (is_closed self.new.standing ≡ false →
            (S.seen self.new.store).rows ≡ (S.seen self.old.store).rows) }
        ensures free { OnOk result (self.new.standing ≡ Free) }
        ensures failed { IsErrOf result HoldErr.Failed → is_closed self.new.standing ≡ false }
        ensures lost { IsErrOf result HoldErr.Lost → is_closed self.new.standing ≡ true }
        ensures taken { IsTrue (S.is_true self.new.store) → is_closed self.old.standing ≡ false →
            self.new.standing ≡ Taken → (c : Contents) → S.may self.new.store c →
            IsTaken (S.seen self.old.store).guard c }
        ensures alone { IsTrue (S.is_true self.new.store) → self.new.standing ≡ Free → (c : Contents) →
            S.may self.new.store c → IsSeen (S.seen self.new.store) c }
        ensures left { IsTrue (S.is_true self.new.store) → (c : Contents) → S.may self.new.store c →
            IsLeft (S.seen self.old.store) (S.may self.old.store) absent writes c }
        ensures closed { is_closed self.old.standing ≡ true → (result ≡ Err HoldErr.Lost) × (self.new ≡ self.old) }
    {
        self.settle();
        match self.standing {
            Standing::Free => self.make(absent, writes),
            Standing::Waiting => Err(HoldErr::Failed),
            Standing::Behind | Standing::Taken => Err(HoldErr::Lost),
        }
    }

    /// How it stands.
    pub fn standing(&self) -> Standing
        ensures { result ≡ self.now.standing }
    {
        self.standing
    }

    /// The store, of which the hold is given up.
    pub fn into_store(self) -> S
        ensures { result ≡ self.store }
    {
        self.store
    }
}

// Takes the prefix, and shows the contents of the desk that has it then.
fn begin<S: Store>(alloc: Global, store: &mut S) -> Result<Contents, StoreErr>
    ensures truth { IsTrue (S.is_true store.new) → IsTrue (S.is_true store.old) }
    ensures shown { IfOk result (λ found. S.seen store.new ≡ found) }
    ensures stood { IfOk result (λ found. IsTrue (S.is_true store.new) → Stood (S.may store.old) found.rows) }
    ensures left { IfOk result (λ found. IsTrue (S.is_true store.new) →
        AwaitsNone found.guard (S.seen store.new) (S.may store.new)) }
{
    let next = claim(alloc, store)?;
    match store.contents() {
        Ok(found) if found.guard == next => Ok(found),
        Ok(_) => Err(StoreErr::Failed),
        Err(err) => Err(err),
    }
}

// Takes the prefix, and answers the guard of the desk that has it then.
fn claim<S: Store>(alloc: Global, store: &mut S) -> Result<Guard, StoreErr>
    ensures truth { IsTrue (S.is_true store.new) → IsTrue (S.is_true store.old) }
    ensures claimed { IfOk result (λ guard. IsTrue (S.is_true store.new) → (c : Contents) → S.may store.new c →
        IsClaimed (S.may store.old) guard c) }
{
    let found = store.guard()?;
    let Some(next) = found.claimed() else {
        return Err(StoreErr::Failed);
    };
    match store.write(&Transaction::of_guard(alloc, found, next)) {
        Outcome::Done => Ok(next),
        _ => Err(StoreErr::Failed),
    }
}
