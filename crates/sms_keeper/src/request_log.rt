//! The log of the replies that are kept.
ghost use Rattle.std.specs.Prelude.{◌≡◌, ◌≤◌, ◌<◌, ◌&&◌, ℕ, List, [], OnOk, Some, is_none, if◌then◌else◌};
ghost use Rattle.std.specs.Option.{option_copied};
ghost use Rattle.sms_keeper.specs.Log.{IsKept, floor_in, kept_in, kept_with, floor_with, same_key};

use crate::kept::{Kept, KeptReply};
use crate::request_key::RequestKey;
use dsn_mask::Name;
use ordered_index::OrderedIndex;
use sms_construct::{Reply, Request};
use std::alloc::{AllocError, Global};
use std::marker::Model;

/// The kept replies by job and request number, and the floors by job. Replies below the floor of their job stay in
/// memory, and are found no more.
#[derive(Drop)]
pub struct RequestLog {
    kept: OrderedIndex<RequestKey, KeptReply>,
    floors: OrderedIndex<Name, u32>,
}

impl Model for RequestLog {
    ghost use Rattle.sms_keeper.specs.Log.{LogView};

    ghost Value = { LogView };

    ghost view = { λ l. record {
      kept = l.kept.rows;
      floors = l.floors.rows;
      reply_room = l.kept.room;
      floor_room = l.floors.room;
    } };
}

impl RequestLog {
    /// An empty log. It takes no memory.
    pub fn new(alloc: Global) -> Self
        ensures kept { result.kept ≡ [] }
        ensures floors { result.floors ≡ [] }
    {
        RequestLog {
            kept: OrderedIndex::new(alloc),
            floors: OrderedIndex::new(alloc),
        }
    }

    /// What is kept for the number of the request. It takes no memory.
    pub fn lookup(&self, request: &Request) -> Kept<'_>
        ensures { IsKept self.now request.now result }
    {
        let floor = self.floor(&request.job);
        if request.number.get() < floor {
            return Kept::Below { floor };
        }
        let key = RequestKey {
            job: request.job,
            number: request.number,
        };
        let Some(kept) = self.kept(&key) else {
            return Kept::New;
        };
        if !request.op.equals(&kept.op) {
            return Kept::Other { first: kept.place };
        }
        Kept::Same {
            first: kept.place,
            reply: &kept.reply,
        }
    }

    // What is kept under a key.
    fn kept(&self, key: &RequestKey) -> Option<&KeptReply>
        ensures { option_copied result ≡ kept_in key.now self.now.kept }
    {
        self.kept.get(key)
    }

    /// The floor of a job, 0 where it has none.
    pub fn floor(&self, job: &Name) -> u32
        ensures { result ≡ floor_in job.now self.now.floors }
    {
        self.floors.get(job).copied().unwrap_or(0)
    }

    /// Takes room for one more reply and one more floor, so that one `keep` and one `purge` can follow, in either
    /// order. Where memory is wanting, there is at least the room that there was.
    pub fn reserve(&mut self) -> Result<(), AllocError>
        ensures reply_room { OnOk result (0 < self.new.reply_room) }
        ensures floor_room { OnOk result (0 < self.new.floor_room) }
        ensures replies { self.old.reply_room ≤ self.new.reply_room }
        ensures purges { self.old.floor_room ≤ self.new.floor_room }
        ensures kept { (key : RequestKey) → kept_in key self.new.kept ≡ kept_in key self.old.kept }
        ensures floors { (job : List ℕ) → floor_in job self.new.floors ≡ floor_in job self.old.floors }
    {
        self.kept.reserve()?;
        self.floors.reserve()
    }

    /// Keeps a reply under the job and the number of its request, unless the number is below its job's floor or a
    /// reply is kept there already.
    pub fn keep(&mut self, request: Request, place: u64, reply: Reply)
        requires { 0 < self.old.reply_room }
        ensures kept { (key : RequestKey) → kept_in key self.new.kept ≡ kept_with self.old request place reply key }
        ensures floors { self.new.floors ≡ self.old.floors }
        ensures room { self.new.floor_room ≡ self.old.floor_room }
    {
        if request.number.get() < self.floor(&request.job) {
            return;
        }
        let key = RequestKey {
            job: request.job,
            number: request.number,
        };
        let op = request.op;
        self.put_new(key, KeptReply { place, op, reply });
    }

    // Keeps a reply under a key where none is kept.
    fn put_new(&mut self, key: RequestKey, kept: KeptReply)
        requires { 0 < self.old.reply_room }
        ensures kept { (other : RequestKey) → kept_in other self.new.kept
            ≡ (if is_none (kept_in key self.old.kept) && same_key key other then Some kept
            else kept_in other self.old.kept) }
        ensures floors { self.new.floors ≡ self.old.floors }
        ensures room { self.new.floor_room ≡ self.old.floor_room }
    {
        self.kept.put_new(key, kept);
    }

    /// Raises the floor of a job to this number; a floor never falls. It takes no memory.
    pub fn purge(&mut self, job: &Name, floor: u32)
        requires { 0 < self.old.floor_room }
        ensures floors { (other : List ℕ) →
            floor_in other self.new.floors ≡ floor_with self.old.floors job.now floor other }
        ensures kept { self.new.kept ≡ self.old.kept }
        ensures room { self.new.reply_room ≡ self.old.reply_room }
    {
        if floor <= self.floor(job) {
            return;
        }
        self.floors.put(*job, floor);
    }
}
