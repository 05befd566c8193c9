//! Transactions under a guard.
ghost use Rattle.std.specs.Prelude.{◌≡◌, []};

use crate::guard::Guard;
use crate::write::Writes;
use desk_common::Items;
use std::alloc::Global;

/// Keys.
pub type Keys = Items<Items<u8>>;

/// Where the guard is as expected and no row has one of the absent keys, the guard becomes the next one and all is
/// written; else nothing is done.
#[derive(Drop)]
pub struct Transaction {
    pub expects: Guard,
    pub next: Guard,
    pub absent: Keys,
    pub writes: Writes,
}

impl Transaction {
    /// The transaction that writes nothing but the guard.
    pub(crate) fn of_guard(alloc: Global, expects: Guard, next: Guard) -> Self
        ensures { result ≡ record { expects = expects; next = next; absent = []; writes = [] } }
    {
        Transaction {
            expects,
            next,
            absent: Items::new(alloc),
            writes: Items::new(alloc),
        }
    }
}
