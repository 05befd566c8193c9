//! Conversations.
ghost use Rattle.std.specs.Prelude.{◌≡◌, ◌≤◌, ◌<◌, ◌⊎◌, [], drop, length, true};
ghost use Rattle.http_flow.specs.Flow.{GoesOn, HasTurned};

use crate::answering::{Front, answer_front};
use crate::pages::Pages;
use crate::phase::Phase;
use http_head::Routes;
use http_page::Site;
use std::alloc::Global;
use std::marker::Model;

/// A conversation over a connection: the bytes that came and aren't answered, and those that are still to be sent. It
/// reads and writes nothing itself.
#[derive(Drop)]
pub struct Conversation {
    buffer: Vec<u8>,
    need: usize,
    out: Vec<u8>,
    sent: usize,
    phase: Phase,
}

impl Model for Conversation {
    ghost use Rattle.std.specs.Prelude.{◌≤◌, drop, length};
    ghost use Rattle.http_flow.specs.Flow.{FlowView, most_message};

    ghost Value = { FlowView };

    ghost view = { λ c. record {
      rest = c.buffer.items;
      need = c.need;
      due = drop c.sent c.out.items;
      phase = c.phase;
    } };

    ghost invariant = { λ c. (c.sent ≤ length c.out.items) × (c.need ≤ most_message) };
}

impl Conversation {
    /// A conversation to which nothing came. It takes no memory.
    pub fn new(alloc: Global) -> Self
        ensures { result ≡ record { rest = []; need = 0; due = []; phase = Phase.Waits } }
    {
        Conversation {
            buffer: Vec::new(alloc),
            need: 0,
            out: Vec::new(alloc),
            sent: 0,
            phase: Phase::Waits,
        }
    }

    /// How it stands.
    pub fn phase(&self) -> Phase
        ensures { result ≡ self.now.phase }
    {
        self.phase
    }

    /// The bytes that are still to be sent.
    pub fn due(&self) -> &[u8]
        ensures { result.now ≡ self.now.due }
    {
        &self.out[self.sent..]
    }

    /// So many bytes of what was due were sent.
    pub fn sent(&mut self, count: usize)
        requires { count ≤ length self.old.due }
        ensures { self.new ≡ record self.old { due = drop count self.old.due } }
    {
        self.sent += count;
    }

    /// A piece came: what it asks whole is answered by the clerk, as long as few bytes are due and it has room.
    pub fn receive<C: Pages>(
        &mut self,
        alloc: Global,
        routes: &Routes,
        site: &Site,
        clerk: &mut C,
        piece: &[u8],
    )
        requires waits { self.old.phase ≡ Phase.Waits }
        requires room { (C.begun clerk.old).has_room (C.talks clerk.old) ≡ true }
        ensures { GoesOn (record { port = site.now; refusal = C.refusal }) C.shows
            (record { talks = C.talks clerk.old; start = C.begun clerk.old })
            (record { talks = C.talks clerk.new; start = C.begun clerk.new })
            self.old self.new piece.now }
    {
        if self.buffer.extend_from_slice(piece).is_err() {
            self.phase = Phase::NoMemory;
            return;
        }
        if self.buffer.len() < self.need {
            return;
        }
        self.answer(alloc, routes, site, clerk);
    }

    /// Goes on with what came, where too many bytes were due or the clerk had no room.
    pub fn resume<C: Pages>(&mut self, alloc: Global, routes: &Routes, site: &Site, clerk: &mut C)
        requires { self.old.phase ≡ Phase.Full }
        ensures { GoesOn (record { port = site.now; refusal = C.refusal }) C.shows
            (record { talks = C.talks clerk.old; start = C.begun clerk.old })
            (record { talks = C.talks clerk.new; start = C.begun clerk.new })
            self.old self.new [] }
    {
        self.answer(alloc, routes, site, clerk);
    }

    // Answers the whole questions of the buffer.
    fn answer<C: Pages>(&mut self, alloc: Global, routes: &Routes, site: &Site, clerk: &mut C)
        ensures { HasTurned (record { port = site.now; refusal = C.refusal }) C.shows
            (record { talks = C.talks clerk.old; start = C.begun clerk.old })
            (record { talks = C.talks clerk.new; start = C.begun clerk.new })
            self.old self.new }
    {
        self.sent = forget_sent(&mut self.out, self.sent);
        match answer_front(alloc, routes, site, clerk, &self.buffer, &mut self.out) {
            Front::Waits { at, need } => {
                drop_front(&mut self.buffer, at);
                self.need = need;
                self.phase = Phase::Waits;
            }
            Front::Full { at } => {
                drop_front(&mut self.buffer, at);
                self.need = 0;
                self.phase = Phase::Full;
            }
            Front::Closed => self.phase = Phase::Closed,
            Front::Refused(status) => self.phase = Phase::Refused(status),
            Front::NoMemory => self.phase = Phase::NoMemory,
        }
    }
}

// Drops what was sent, where that is all. Says how many of the bytes that are left were sent.
fn forget_sent(out: &mut Vec<u8>, sent: usize) -> usize
    requires { sent ≤ length out.old.items }
    ensures due { drop result out.new.items ≡ drop sent out.old.items }
    ensures within { result ≤ length out.new.items }
    ensures part { (result ≡ 0) ⊎ (result < length out.new.items) }
{
    if sent == out.len() {
        out.clear();
        return 0;
    }
    sent
}

// Drops the bytes before `at`, which moves the rest once, if there is one.
fn drop_front(buffer: &mut Vec<u8>, at: usize)
    requires { at ≤ length buffer.old.items }
    ensures { buffer.new.items ≡ drop at buffer.old.items }
{
    if at == buffer.len() {
        buffer.clear();
    } else {
        buffer.drain(..at);
    }
}
