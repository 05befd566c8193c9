//! Engines that hold the rows of a prefix.
ghost use Rattle.std.specs.Prelude.{◌≡◌, Bool, IfOk, IsTrue, OnErr, OnOk};
ghost use Rattle.row_store.specs.declared.contents.Contents.{Contents};
ghost use Rattle.row_store.specs.Contents.{IsFrom};
ghost use Rattle.row_store.specs.Histories.{IsRule};
ghost use Rattle.row_store.specs.Outcomes.{IsFound, IsLater, Leaves, Sees};

use crate::contents::Contents;
use crate::guard::Guard;
use crate::transaction::Transaction;

/// How a transaction ended.
#[derive(Clone, Copy, Debug, PartialEq, Eq)]
pub enum Outcome {
    /// It was made.
    Done,
    /// The guard was another, or a row has one of the absent keys; nothing was done.
    Refused,
    /// Nothing was done.
    Failed,
    /// No answer came: it may have been made, and may still be made later.
    Unknown,
}

/// Why a store doesn't show its contents.
#[derive(Clone, Copy, Debug, PartialEq, Eq)]
pub enum StoreErr {
    /// The engine failed, or no answer came.
    Failed,
    /// Memory was wanting.
    NoMemory,
}

/// Holds the rows of a prefix, which other desks may reach too. Each of them writes by transactions under the guard
/// alone, and takes the prefix first.
pub trait Store: Drop {
    /// The contents as the engine's answers show them last.
    ghost seen: { Self → Contents };

    /// What the engine may hold, now and at any later moment before the next call.
    ghost may: { Self → Contents → Type 0 };

    /// So far the engine's answers are those of one history.
    ghost is_true: { Self → Bool };

    /// Makes a transaction. It expects the guard that was seen last.
    fn write(&mut self, transaction: &Transaction) -> Outcome
        requires rule { IsRule transaction.now }
        requires expected { IsTrue (is_true self.old) → transaction.now.expects ≡ (seen self.old).guard }
        ensures truth { IsTrue (is_true self.new) → IsTrue (is_true self.old) }
        ensures sees { IsTrue (is_true self.new) → Sees (seen self.old) transaction.now result (seen self.new) }
        ensures leaves { (c : Contents) → may self.new c → Leaves (may self.old) transaction.now result c };

    /// The guard; the rows under it aren't shown.
    fn guard(&mut self) -> Result<Guard, StoreErr>
        ensures truth { IsTrue (is_true self.new) → IsTrue (is_true self.old) }
        ensures found { IsTrue (is_true self.new) → IfOk result (IsFound (may self.old) (seen self.new)) }
        ensures unseen { OnErr result (seen self.new ≡ seen self.old) }
        ensures leaves { (c : Contents) → may self.new c → may self.old c }
        ensures later { (c : Contents) → may self.new c → OnOk result (IsFrom (seen self.new).guard c.guard) };

    /// The contents of one moment.
    fn contents(&mut self) -> Result<Contents, StoreErr>
        ensures truth { IsTrue (is_true self.new) → IsTrue (is_true self.old) }
        ensures found { IsTrue (is_true self.new) → IfOk result (may self.old) }
        ensures shown { IfOk result (λ c. seen self.new ≡ c) }
        ensures unseen { OnErr result (seen self.new ≡ seen self.old) }
        ensures leaves { (c : Contents) → may self.new c → may self.old c }
        ensures later { (c : Contents) → may self.new c → OnOk result (IsLater (seen self.new) c) };
}
