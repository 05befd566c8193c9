//! What one answered request changes.
ghost use Rattle.std.specs.Prelude.{◌≡◌, ◌↔◌, IfOk, IsTrue};
ghost use Rattle.sms_keeper.specs.Suits.{Suits};

use crate::effect::Effect;
use sms_construct::{Reply, Request};
use std::alloc::{AllocError, Global};

/// A fresh request with its place in the journal, its reply, and the effect on what is recorded.
#[derive(Drop)]
pub struct Change {
    pub place: u64,
    pub request: Request,
    pub reply: Reply,
    pub effect: Effect,
}

impl Change {
    /// Whether a keeper takes the change: an activation comes with a request for one, and a status is that of a
    /// storage group or a volume.
    pub fn suits(&self) -> bool
        ensures { IsTrue result ↔ Suits self.now }
    {
        self.effect.suits(&self.request.op)
    }

    /// The same change, which shares what request, reply and effect hold, or want of memory.
    pub fn copy(&self, alloc: Global) -> Result<Self, AllocError>
        ensures { IfOk result (λ copy. copy ≡ self.now) }
    {
        Ok(Change {
            place: self.place,
            request: self.request.copy()?,
            reply: self.reply.copy()?,
            effect: self.effect.copy(alloc)?,
        })
    }
}
