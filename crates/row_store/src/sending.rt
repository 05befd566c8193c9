// Changes that are sent until they are answered.
ghost use Rattle.std.specs.Prelude.{◌≡◌, IsTrue};
ghost use Rattle.row_store.specs.declared.contents.Contents.{Contents};
ghost use Rattle.row_store.specs.Contents.{following};
ghost use Rattle.row_store.specs.Holds.{IsSeen};
ghost use Rattle.row_store.specs.Inner.Holding.{MayCome, Sends};

use crate::store::{Outcome, Store};
use crate::transaction::Transaction;

/// How a change ended that was sent until it was answered.
#[derive(Clone, Copy, Debug, PartialEq, Eq)]
pub enum Sent {
    /// It was made.
    Made,
    /// It wasn't made, and won't be.
    Unmade,
    /// No answer came so far.
    Unknown,
    /// Another desk took the prefix.
    Taken,
}

// How often a change is sent again to which no answer came.
const TRIES: usize = 3;

// What became of a change that was refused, to which no answer came before.
fn found_after<S: Store>(store: &mut S, change: &Transaction) -> Sent
    requires rule { change.now.next ≡ following change.now.expects }
    requires expected { IsTrue (S.is_true store.old) → change.now.expects ≡ (S.seen store.old).guard }
    requires may { IsTrue (S.is_true store.old) → (c : Contents) → S.may store.old c →
        MayCome (S.seen store.old) change.now c }
    ensures truth { IsTrue (S.is_true store.new) → IsTrue (S.is_true store.old) }
    ensures sent { IsTrue (S.is_true store.new) →
        Sends (S.seen store.old) (S.seen store.new) (S.may store.new) change.now result }
    ensures left { (c : Contents) → S.may store.new c → S.may store.old c }
{
    match store.guard() {
        Ok(found) if found == change.next => Sent::Made,
        Ok(found) if found != change.expects => Sent::Taken,
        _ => Sent::Unknown,
    }
}

// Sends a change once more, to which no answer came.
fn send_once<S: Store>(store: &mut S, change: &Transaction) -> Sent
    requires rule { change.now.next ≡ following change.now.expects }
    requires expected { IsTrue (S.is_true store.old) → change.now.expects ≡ (S.seen store.old).guard }
    requires may { IsTrue (S.is_true store.old) → (c : Contents) → S.may store.old c →
        MayCome (S.seen store.old) change.now c }
    ensures truth { IsTrue (S.is_true store.new) → IsTrue (S.is_true store.old) }
    ensures sent { IsTrue (S.is_true store.new) →
        Sends (S.seen store.old) (S.seen store.new) (S.may store.new) change.now result }
    ensures left { IsTrue (S.is_true store.new) → (c : Contents) → S.may store.new c →
        MayCome (S.seen store.old) change.now c }
{
    match store.write(change) {
        Outcome::Done => Sent::Made,
        Outcome::Refused => found_after(store, change),
        Outcome::Failed | Outcome::Unknown => Sent::Unknown,
    }
}

// Sends a change again, to which no answer came.
fn send_again<S: Store>(store: &mut S, change: &Transaction) -> Sent
    requires rule { change.now.next ≡ following change.now.expects }
    requires expected { IsTrue (S.is_true store.old) → change.now.expects ≡ (S.seen store.old).guard }
    requires may { IsTrue (S.is_true store.old) → (c : Contents) → S.may store.old c →
        MayCome (S.seen store.old) change.now c }
    ensures truth { IsTrue (S.is_true store.new) → IsTrue (S.is_true store.old) }
    ensures sent { IsTrue (S.is_true store.new) →
        Sends (S.seen store.old) (S.seen store.new) (S.may store.new) change.now result }
    ensures left { IsTrue (S.is_true store.new) → (c : Contents) → S.may store.new c →
        MayCome (S.seen store.old) change.now c }
{
    for _ in 0..TRIES {
        match send_once(store, change) {
            Sent::Unknown => (),
            ended => return ended,
        }
    }
    Sent::Unknown
}

// What became of a change that was refused at once.
fn refused<S: Store>(store: &mut S, change: &Transaction) -> Sent
    requires expected { IsTrue (S.is_true store.old) → change.now.expects ≡ (S.seen store.old).guard }
    requires may { IsTrue (S.is_true store.old) → (c : Contents) → S.may store.old c →
        IsSeen (S.seen store.old) c }
    ensures truth { IsTrue (S.is_true store.new) → IsTrue (S.is_true store.old) }
    ensures sent { IsTrue (S.is_true store.new) →
        Sends (S.seen store.old) (S.seen store.new) (S.may store.new) change.now result }
    ensures left { (c : Contents) → S.may store.new c → S.may store.old c }
{
    match store.guard() {
        Ok(found) if found != change.expects => Sent::Taken,
        _ => Sent::Unmade,
    }
}

// Makes the change; where no answer comes it is sent again.
pub fn send<S: Store>(store: &mut S, change: &Transaction) -> Sent
    requires rule { change.now.next ≡ following change.now.expects }
    requires expected { IsTrue (S.is_true store.old) → change.now.expects ≡ (S.seen store.old).guard }
    requires may { IsTrue (S.is_true store.old) → (c : Contents) → S.may store.old c →
        IsSeen (S.seen store.old) c }
    ensures truth { IsTrue (S.is_true store.new) → IsTrue (S.is_true store.old) }
    ensures sent { IsTrue (S.is_true store.new) →
        Sends (S.seen store.old) (S.seen store.new) (S.may store.new) change.now result }
    ensures left { IsTrue (S.is_true store.new) → (c : Contents) → S.may store.new c →
        MayCome (S.seen store.old) change.now c }
{
    match store.write(change) {
        Outcome::Done => Sent::Made,
        Outcome::Refused => refused(store, change),
        Outcome::Failed => Sent::Unmade,
        Outcome::Unknown => send_again(store, change),
    }
}
