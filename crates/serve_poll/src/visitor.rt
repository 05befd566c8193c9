//! A connection that is being served.
ghost use Rattle.std.specs.Prelude.{◌≡◌, ◌≢◌, [], true};
ghost use Rattle.ready_wires.specs.Wires.{IsTold, WireSeen};
ghost use Rattle.http_flow.specs.Exchange.{Terms};
ghost use Rattle.serve_poll.specs.Visitors.{Advances, Hears, IsStep, Sends, WasTold};

use crate::step::{Left, Step};
use http_flow::{Conversation, Pages, Phase};
use http_head::Routes;
use http_page::Site;
use ready_wires::Wire;
use std::alloc::Global;

// So many bytes of a connection are read at once.
const PIECE: usize = 4_096;

// So many steps a connection takes before others have their turn.
const MOST_STEPS: u32 = 4;

/// A connection that is being served: its number, and its conversation.
#[derive(Drop)]
pub struct Visitor<C> {
    pub number: u64,
    pub conn: C,
    pub conversation: Conversation,
}

/// Serves the connection until it would wait or has ended, or the clerk, which has room, has none left; at most so often
/// that others get their turn.
pub fn advance<C: Wire, K: Pages>(
    alloc: Global,
    routes: &Routes,
    site: &Site,
    clerk: &mut K,
    visitor: &mut Visitor<C>,
) -> Step
    requires { (K.begun clerk.old).has_room (K.talks clerk.old) ≡ true }
    ensures advances { Advances (record { port = site.now; refusal = K.refusal }) K.shows
        (record { talks = K.talks clerk.old; start = K.begun clerk.old })
        (record { talks = K.talks clerk.new; start = K.begun clerk.new })
        (record {
          number = visitor.old.number;
          wire = C.seen visitor.old.conn;
          flow = visitor.old.conversation;
        })
        (record {
          number = visitor.new.number;
          wire = C.seen visitor.new.conn;
          flow = visitor.new.conversation;
        }) }
    ensures step { IsStep (C.seen visitor.new.conn) visitor.new.conversation result }
{
    for _ in 1..MOST_STEPS {
        let step = take_step(alloc, routes, site, clerk, visitor);
        if step != Step::Again {
            return step;
        }
        if !clerk.has_room() {
            return step;
        }
    }
    take_step(alloc, routes, site, clerk, visitor)
}

// One call of the connection, or its end.
fn take_step<C: Wire, K: Pages>(
    alloc: Global,
    routes: &Routes,
    site: &Site,
    clerk: &mut K,
    visitor: &mut Visitor<C>,
) -> Step
    requires { (K.begun clerk.old).has_room (K.talks clerk.old) ≡ true }
    ensures advances { Advances (record { port = site.now; refusal = K.refusal }) K.shows
        (record { talks = K.talks clerk.old; start = K.begun clerk.old })
        (record { talks = K.talks clerk.new; start = K.begun clerk.new })
        (record {
          number = visitor.old.number;
          wire = C.seen visitor.old.conn;
          flow = visitor.old.conversation;
        })
        (record {
          number = visitor.new.number;
          wire = C.seen visitor.new.conn;
          flow = visitor.new.conversation;
        }) }
    ensures step { IsStep (C.seen visitor.new.conn) visitor.new.conversation result }
{
    go_on(alloc, routes, site, clerk, &mut visitor.conversation);
    call(alloc, routes, site, clerk, visitor)
}

// Goes on with what came, where nothing is due.
fn go_on<K: Pages>(
    alloc: Global,
    routes: &Routes,
    site: &Site,
    clerk: &mut K,
    conversation: &mut Conversation,
)
    requires { (K.begun clerk.old).has_room (K.talks clerk.old) ≡ true }
    ensures hears { (wire : WireSeen) → Hears (record { port = site.now; refusal = K.refusal }) K.shows
        (record { talks = K.talks clerk.old; start = K.begun clerk.old })
        (record { talks = K.talks clerk.new; start = K.begun clerk.new })
        wire wire conversation.old conversation.new }
    ensures gone { conversation.new.due ≡ [] → conversation.new.phase ≢ Phase.Full }
    ensures room { conversation.new.due ≡ [] → conversation.new.phase ≡ Phase.Waits
        → (K.begun clerk.new).has_room (K.talks clerk.new) ≡ true }
{
    if !conversation.due().is_empty() {
        return;
    }
    match conversation.phase() {
        Phase::Full => conversation.resume(alloc, routes, site, clerk),
        Phase::Waits | Phase::Closed | Phase::Refused(_) | Phase::NoMemory => {}
    }
}

// Sends what is due; where nothing is, reads.
fn call<C: Wire, K: Pages>(
    alloc: Global,
    routes: &Routes,
    site: &Site,
    clerk: &mut K,
    visitor: &mut Visitor<C>,
) -> Step
    requires gone { visitor.old.conversation.due ≡ [] → visitor.old.conversation.phase ≢ Phase.Full }
    requires room { visitor.old.conversation.due ≡ [] → visitor.old.conversation.phase ≡ Phase.Waits
        → (K.begun clerk.old).has_room (K.talks clerk.old) ≡ true }
    ensures advances { Advances (record { port = site.now; refusal = K.refusal }) K.shows
        (record { talks = K.talks clerk.old; start = K.begun clerk.old })
        (record { talks = K.talks clerk.new; start = K.begun clerk.new })
        (record {
          number = visitor.old.number;
          wire = C.seen visitor.old.conn;
          flow = visitor.old.conversation;
        })
        (record {
          number = visitor.new.number;
          wire = C.seen visitor.new.conn;
          flow = visitor.new.conversation;
        }) }
    ensures step { IsStep (C.seen visitor.new.conn) visitor.new.conversation result }
{
    if !visitor.conversation.due().is_empty() {
        return send(&mut visitor.conn, &mut visitor.conversation);
    }
    match visitor.conversation.phase() {
        Phase::Waits => hear(
            alloc,
            routes,
            site,
            clerk,
            &mut visitor.conn,
            &mut visitor.conversation,
        ),
        Phase::Full => unreachable!(),
        Phase::Closed | Phase::Refused(_) | Phase::NoMemory => Step::Over(Left::Answered),
    }
}

// Sends a front of what is due.
fn send<C: Wire>(conn: &mut C, conversation: &mut Conversation) -> Step
    requires { conversation.old.due ≢ [] }
    ensures sends { (terms : Terms)
        → Sends terms (C.seen conn.old) (C.seen conn.new) conversation.old conversation.new }
    ensures step { IsStep (C.seen conn.new) conversation.new result }
{
    match conn.write(conversation.due()) {
        Ok(Some(count)) => {
            conversation.sent(count);
            Step::Again
        }
        Ok(None) => Step::Waits,
        Err(_) => Step::Over(Left::Failed),
    }
}

// Reads a piece, and answers what it asks.
fn hear<C: Wire, K: Pages>(
    alloc: Global,
    routes: &Routes,
    site: &Site,
    clerk: &mut K,
    conn: &mut C,
    conversation: &mut Conversation,
) -> Step
    requires waits { conversation.old.phase ≡ Phase.Waits }
    requires sent { conversation.old.due ≡ [] }
    requires room { (K.begun clerk.old).has_room (K.talks clerk.old) ≡ true }
    ensures hears { Hears (record { port = site.now; refusal = K.refusal }) K.shows
        (record { talks = K.talks clerk.old; start = K.begun clerk.old })
        (record { talks = K.talks clerk.new; start = K.begun clerk.new })
        (C.seen conn.old) (C.seen conn.new) conversation.old conversation.new }
    ensures step { IsStep (C.seen conn.new) conversation.new result }
{
    let mut piece = [0; PIECE];
    match conn.read(&mut piece) {
        Ok(Some(count)) => {
            if count == 0 {
                return Step::Over(Left::InputEnded);
            }
            conversation.receive(alloc, routes, site, clerk, &piece[..count]);
            Step::Again
        }
        Ok(None) => Step::Waits,
        Err(_) => Step::Over(Left::Failed),
    }
}

/// Tells a text to a connection that came just now, as far as it takes it without waiting.
pub fn tell<C: Wire>(conn: &mut C, text: &[u8])
    requires came { IsTold (C.seen conn.old).came [] }
    requires taken { IsTold (C.seen conn.old).taken [] }
    ensures told { WasTold (C.seen conn.new) text.now }
    ensures watch { (C.seen conn.new).watch ≡ (C.seen conn.old).watch }
{
    let mut done = 0;
    while done < text.len() {
        match conn.write(&text[done..]) {
            Ok(Some(count)) => done += count,
            Ok(None) => return,
            Err(_) => return,
        }
    }
}
