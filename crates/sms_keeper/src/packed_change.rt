// A change in little memory.
ghost use Rattle.std.specs.Prelude.{◌≡◌, IfOk};
ghost use Rattle.sms_keeper.specs.Inner.Packing.{effect_in, op_in, reply_in};

use crate::change::Change;
use crate::effect::Effect;
use desk_common::{Boxed, Shared};
use dsn_mask::{Dsn, Name};
use sms_construct::{Alloc, DataSet, Extents, Op, Reply, Request, RequestNumber, Trace};
use std::alloc::{AllocError, Global};
use std::marker::Model;

/// A change that takes less memory where it allocates, extends or deletes a data set. Contracts see the change.
#[derive(Drop)]
pub struct PackedChange {
    place: u64,
    job: Name,
    number: RequestNumber,
    deed: PackedDeed,
}

/// The op, the reply and the effect of a change.
#[derive(Drop)]
pub enum PackedDeed {
    /// A data set was allocated, and is put so.
    Granted {
        asked: Shared<Alloc>,
        set: Shared<DataSet>,
        trace: Shared<Trace>,
        put: Shared<DataSet>,
    },
    /// A data set was extended, and is put so.
    Extended {
        added: Shared<Extents>,
        put: Shared<DataSet>,
    },
    /// A data set was deleted, and is dropped.
    Deleted(Boxed<DeletedDeed>),
    /// All else.
    Other(Boxed<OtherDeed>),
}

/// A data set that was deleted, and the tracks that became free.
#[derive(Drop)]
pub struct DeletedDeed {
    pub dsn: Dsn,
    pub tracks: u64,
}

/// An op with a reply and an effect.
#[derive(Drop)]
pub struct OtherDeed {
    pub op: Op,
    pub reply: Reply,
    pub effect: Effect,
}

impl Model for PackedChange {
    ghost use Rattle.sms_keeper.specs.declared.change.Change.{Change};
    ghost use Rattle.sms_keeper.specs.Inner.Packing.{effect_in, op_in, reply_in};

    ghost Value = { Change };

    ghost view = { λ c. record {
      place = c.place;
      request = record { job = c.job; number = c.number; op = op_in c.deed };
      reply = reply_in c.deed;
      effect = effect_in c.deed;
    } };
}

impl PackedChange {
    /// The change, packed; or want of memory.
    pub fn of(alloc: Global, change: &Change) -> Result<Self, AllocError>
        ensures { IfOk result (λ packed. packed ≡ change.now) }
    {
        Ok(PackedChange {
            place: change.place,
            job: change.request.job,
            number: change.request.number,
            deed: deed_of(alloc, &change.request.op, &change.reply, &change.effect)?,
        })
    }

    /// The change, or want of memory.
    pub fn change(&self, alloc: Global) -> Result<Change, AllocError>
        ensures { IfOk result (λ change. change ≡ self.now) }
    {
        let OtherDeed { op, reply, effect } = self.deed.unpacked(alloc)?;
        Ok(Change {
            place: self.place,
            request: Request {
                job: self.job,
                number: self.number,
                op,
            },
            reply,
            effect,
        })
    }
}

// The op, the reply and the effect, packed.
fn deed_of(alloc: Global, op: &Op, reply: &Reply, effect: &Effect) -> Result<PackedDeed, AllocError>
    ensures op { IfOk result (λ deed. op_in deed ≡ op.now) }
    ensures reply { IfOk result (λ deed. reply_in deed ≡ reply.now) }
    ensures effect { IfOk result (λ deed. effect_in deed ≡ effect.now) }
{
    match (op, reply, effect) {
        (Op::Alloc(asked), Reply::Granted { set, trace }, Effect::PutSet(put)) => {
            Ok(PackedDeed::Granted {
                asked: asked.share()?,
                set: set.share()?,
                trace: trace.share()?,
                put: put.share()?,
            })
        }
        (Op::Extend(dsn), Reply::Extended { added }, Effect::PutSet(put))
            if *dsn == put.get().dsn => {
            Ok(PackedDeed::Extended {
                added: added.share()?,
                put: put.share()?,
            })
        }
        (Op::Delete(dsn), Reply::Deleted { tracks }, Effect::DropSet(dropped)) if dsn == dropped =>
            {
                let deed = DeletedDeed {
                    dsn: *dsn,
                    tracks: *tracks,
                };
                Ok(PackedDeed::Deleted(Boxed::new(alloc, deed)?))
            }
        _ => other_deed(alloc, op, reply, effect),
    }
}

// The op, the reply and the effect as they are.
fn other_deed(
    alloc: Global,
    op: &Op,
    reply: &Reply,
    effect: &Effect,
) -> Result<PackedDeed, AllocError>
    ensures op { IfOk result (λ deed. op_in deed ≡ op.now) }
    ensures reply { IfOk result (λ deed. reply_in deed ≡ reply.now) }
    ensures effect { IfOk result (λ deed. effect_in deed ≡ effect.now) }
{
    let deed = OtherDeed {
        op: op.copy()?,
        reply: reply.copy()?,
        effect: effect.copy(alloc)?,
    };
    Ok(PackedDeed::Other(Boxed::new(alloc, deed)?))
}

impl PackedDeed {
    // The op, the reply and the effect, or want of memory.
    fn unpacked(&self, alloc: Global) -> Result<OtherDeed, AllocError>
        ensures op { IfOk result (λ deed. deed.op ≡ op_in self.now) }
        ensures reply { IfOk result (λ deed. deed.reply ≡ reply_in self.now) }
        ensures effect { IfOk result (λ deed. deed.effect ≡ effect_in self.now) }
    {
        match self {
            PackedDeed::Granted {
                asked,
                set,
                trace,
                put,
            } => Ok(OtherDeed {
                op: Op::Alloc(asked.share()?),
                reply: Reply::Granted {
                    set: set.share()?,
                    trace: trace.share()?,
                },
                effect: Effect::PutSet(put.share()?),
            }),
            PackedDeed::Extended { added, put } => Ok(OtherDeed {
                op: Op::Extend(put.get().dsn),
                reply: Reply::Extended {
                    added: added.share()?,
                },
                effect: Effect::PutSet(put.share()?),
            }),
            PackedDeed::Deleted(deed) => Ok(OtherDeed {
                op: Op::Delete(deed.get().dsn),
                reply: Reply::Deleted {
                    tracks: deed.get().tracks,
                },
                effect: Effect::DropSet(deed.get().dsn),
            }),
            PackedDeed::Other(other) => other.get().copy(alloc),
        }
    }
}

impl OtherDeed {
    // The same, which shares what op, reply and effect hold, or want of memory.
    fn copy(&self, alloc: Global) -> Result<Self, AllocError>
        ensures { IfOk result (λ copy. copy ≡ self.now) }
    {
        Ok(OtherDeed {
            op: self.op.copy()?,
            reply: self.reply.copy()?,
            effect: self.effect.copy(alloc)?,
        })
    }
}
