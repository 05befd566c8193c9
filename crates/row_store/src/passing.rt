// Changes that are passed over.
ghost use Rattle.std.specs.Prelude.{◌≡◌, IsTrue};
ghost use Rattle.row_store.specs.declared.contents.Contents.{Contents};
ghost use Rattle.row_store.specs.Inner.Holding.{AwaitsOne, IsPassedLeft, Passes};
ghost use Rattle.row_store.specs.Contents.{following, passing};

use crate::guard::Guard;
use crate::store::{Outcome, Store};
use crate::transaction::Transaction;
use std::alloc::Global;

/// How the passing over of a change ended to which no answer came.
#[derive(Clone, Copy, Debug, PartialEq, Eq)]
pub enum Passed {
    /// It wasn't made, and won't be; this is the guard.
    Free(Guard),
    /// No answer came so far.
    Waiting,
    /// It was made.
    Behind,
    /// Another desk took the prefix.
    Taken,
}

// What became of a passing over that was refused: one that was sent before, the change, or another desk's taking came
// first.
fn found_ahead<S: Store>(store: &mut S, guard: Guard, next: Guard) -> Passed
    requires next { next ≡ passing guard }
    requires awaits { IsTrue (S.is_true store.old) → AwaitsOne guard (S.seen store.old) (S.may store.old) }
    requires gone { IsTrue (S.is_true store.old) → (c : Contents) → S.may store.old c → c.guard ≡ guard → ⊥ }
    ensures truth { IsTrue (S.is_true store.new) → IsTrue (S.is_true store.old) }
    ensures passed { IsTrue (S.is_true store.new) →
        Passes (S.seen store.old) (S.seen store.new) (S.may store.new) result }
    ensures left { (c : Contents) → S.may store.new c → S.may store.old c }
{
    match store.guard() {
        Ok(found) if found == next => Passed::Free(next),
        Ok(found) if found.epoch == guard.epoch => Passed::Behind,
        Ok(_) => Passed::Taken,
        Err(_) => Passed::Waiting,
    }
}

// Passes over a change to which no answer came, so that it can't be made any more.
pub fn pass_over<S: Store>(alloc: Global, store: &mut S, guard: Guard) -> Passed
    requires { IsTrue (S.is_true store.old) → AwaitsOne guard (S.seen store.old) (S.may store.old) }
    ensures truth { IsTrue (S.is_true store.new) → IsTrue (S.is_true store.old) }
    ensures passed { IsTrue (S.is_true store.new) →
        Passes (S.seen store.old) (S.seen store.new) (S.may store.new) result }
    ensures left { IsTrue (S.is_true store.new) → (c : Contents) → S.may store.new c →
        IsPassedLeft (S.seen store.old) (S.may store.old) c }
{
    let Some(next) = guard.passing() else {
        return Passed::Waiting;
    };
    match store.write(&Transaction::of_guard(alloc, guard, next)) {
        Outcome::Done => Passed::Free(next),
        Outcome::Refused => found_ahead(store, guard, next),
        Outcome::Failed | Outcome::Unknown => Passed::Waiting,
    }
}
