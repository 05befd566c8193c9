//! The connections that are being served.
ghost use Rattle.std.specs.Prelude.{◌≡◌, ◌≤◌, [], IfOk};

use crate::visitor::Visitor;
use slab::Slab;
use std::alloc::{AllocError, Global};

/// The connections that are being served, how many may be, and how many came in all.
#[derive(Drop)]
pub struct Hall<C> {
    pub seats: Slab<Visitor<C>>,
    pub most: usize,
    pub count: u64,
}

impl<C: Drop> Hall<C> {
    /// An empty hall for so many connections at most; room for them is taken here.
    pub fn with_room(alloc: Global, most: usize) -> Result<Self, AllocError>
        ensures empty { IfOk result (λ hall. hall.seats.slots ≡ []) }
        ensures count { IfOk result (λ hall. hall.count ≡ 0) }
        ensures most { IfOk result (λ hall. hall.most ≡ most) }
        ensures room { IfOk result (λ hall. most ≤ hall.seats.capacity) }
    {
        let seats = Slab::with_capacity(alloc, most)?;
        Ok(Hall {
            seats,
            most,
            count: 0,
        })
    }
}
