//! Many connections and their events.
ghost use Rattle.std.specs.Prelude.{◌≡◌, ◌≤◌, ◌<◌, ◌^◌, ◌-◌, ◌⊎◌, [], false, true, List, Some, ℕ};
ghost use Rattle.std.specs.Prelude.{IfNone, IfSome, IsTrue};
ghost use Rattle.slab.specs.Slab.{HasRoomFor, slab_len};
ghost use Rattle.desk_common.specs.Causes.{Rose};
ghost use Rattle.sms_base.specs.Counts.{one_call_more};
ghost use Rattle.ready_wires.specs.Wires.{IsTold, no_watch};
ghost use Rattle.ready_wires.specs.Events.{IsAwaited, ReadySeen};
ghost use Rattle.http_flow.specs.Exchange.{Terms};
ghost use Rattle.http_flow.specs.Flow.{FlowView};
ghost use Rattle.serve_poll.specs.Visitors.{IsLeft, IsStep};
ghost use Rattle.serve_poll.specs.Halls.{AreWatched, AreWatchedBut, HasArrived, House, IsInTurn, KeepsStanding};
ghost use Rattle.serve_poll.specs.Halls.{StaysStanding, WasAsked, WasIdle};
ghost use Rattle.serve_poll.specs.Inner.Watches.{IsSameWatch};

use crate::hall::Hall;
use crate::step::{Left, Step};
use crate::visitor::{Visitor, advance, tell};
use http_flow::{Conversation, Pages};
use http_head::Routes;
use http_page::Site;
use ready_wires::{Event, Readiness};
use std::alloc::Global;

/// Why no further event is awaited.
#[derive(Clone, Copy, Debug, PartialEq, Eq)]
pub enum LoopEnd {
    /// As many events came as were asked for.
    Turns,
    /// Nothing more happens.
    Ended,
    /// Waiting failed.
    Failed,
    /// No number is left for a further connection.
    Numbers,
}

/// Waits for one event, and does what it asks; one that comes when as many connections are served as may be is told
/// `away`. The clerk has room. Says `Turns` where the event came, and else why no further one is awaited
/// (docs/manual/smsd.md, "The served desk").
pub fn serve_event<P: Readiness, K: Pages>(
    alloc: Global,
    routes: &Routes,
    site: &Site,
    clerk: &mut K,
    poller: &mut P,
    hall: &mut Hall<P::Conn>,
    away: &[u8],
) -> LoopEnd
    requires { (K.begun clerk.old).has_room (K.talks clerk.old) ≡ true }
    ensures stands { KeepsStanding
        (record { terms = record { port = site.now; refusal = K.refusal }; away = away.now })
        P.Conn.seen K.shows
        (record { talks = K.talks clerk.old; start = K.begun clerk.old })
        (record { talks = K.talks clerk.new; start = K.begun clerk.new })
        (P.seen poller.old) (P.seen poller.new) (P.back poller.old) (P.back poller.new) hall.old hall.new }
    ensures watched { AreWatched P.Conn.seen (P.seen poller.old).awaited hall.old.seats
        → AreWatched P.Conn.seen (P.seen poller.new).awaited hall.new.seats }
    ensures asked { WasAsked 1 (P.seen poller.old) (P.seen poller.new) hall.new.count result }
    ensures most { hall.new.most ≡ hall.old.most }
    ensures faults { (P.seen poller.old).faults ≤ (P.seen poller.new).faults }
{
    if hall.count == u64::MAX {
        return LoopEnd::Numbers;
    }
    match meet(alloc, routes, site, clerk, poller, hall, away) {
        Some(end) => end,
        None => LoopEnd::Turns,
    }
}

// Waits for one event, and does what it asks; or says why no further one is awaited.
fn meet<P: Readiness, K: Pages>(
    alloc: Global,
    routes: &Routes,
    site: &Site,
    clerk: &mut K,
    poller: &mut P,
    hall: &mut Hall<P::Conn>,
    away: &[u8],
) -> Option<LoopEnd>
    requires count { hall.old.count < 2 ^ 64 - 1 }
    requires room { (K.begun clerk.old).has_room (K.talks clerk.old) ≡ true }
    ensures stands { KeepsStanding
        (record { terms = record { port = site.now; refusal = K.refusal }; away = away.now })
        P.Conn.seen K.shows
        (record { talks = K.talks clerk.old; start = K.begun clerk.old })
        (record { talks = K.talks clerk.new; start = K.begun clerk.new })
        (P.seen poller.old) (P.seen poller.new) (P.back poller.old) (P.back poller.new) hall.old hall.new }
    ensures watched { AreWatched P.Conn.seen (P.seen poller.old).awaited hall.old.seats
        → AreWatched P.Conn.seen (P.seen poller.new).awaited hall.new.seats }
    ensures calls { (P.seen poller.new).calls ≡ one_call_more (P.seen poller.old).calls }
    ensures faults { (P.seen poller.old).faults ≤ (P.seen poller.new).faults }
    ensures most { hall.new.most ≡ hall.old.most }
    ensures why { IfSome result (λ end.
        ((end ≡ LoopEnd.Ended) × ((P.seen poller.new).ended ≡ true))
        ⊎ ((end ≡ LoopEnd.Failed) × Rose (P.seen poller.old).faults (P.seen poller.new).faults)) }
{
    match poller.next() {
        Ok(Event::Came(conn)) => {
            admit(alloc, poller, hall, conn, away);
            None
        }
        Ok(Event::Ready(key)) => {
            serve_ready(alloc, routes, site, clerk, poller, hall, key);
            None
        }
        Ok(Event::Idle(key)) => {
            dismiss(poller, hall, key);
            None
        }
        Ok(Event::Quiet) => None,
        Ok(Event::Ended) => Some(LoopEnd::Ended),
        Err(_) => Some(LoopEnd::Failed),
    }
}

// Seats a connection that came, or hands it back where as many are served as may be.
fn admit<P: Readiness>(
    alloc: Global,
    poller: &mut P,
    hall: &mut Hall<P::Conn>,
    conn: P::Conn,
    away: &[u8],
)
    requires room { hall.old.count < 2 ^ 64 - 1 }
    requires came { IsTold (P.Conn.seen conn).came [] }
    requires taken { IsTold (P.Conn.seen conn).taken [] }
    requires watch { (P.Conn.seen conn).watch ≡ no_watch }
    ensures stands { (terms : Terms) (before : ReadySeen) → HasArrived before (P.seen poller.old)
        → StaysStanding (record { terms = terms; away = away.now }) P.Conn.seen
        before (P.seen poller.new) (P.back poller.old) (P.back poller.new) hall.old hall.new }
    ensures watched { AreWatched P.Conn.seen (P.seen poller.old).awaited hall.old.seats
        → AreWatched P.Conn.seen (P.seen poller.new).awaited hall.new.seats }
    ensures calls { (P.seen poller.new).calls ≡ (P.seen poller.old).calls }
    ensures most { hall.new.most ≡ hall.old.most }
    ensures faults { (P.seen poller.old).faults ≤ (P.seen poller.new).faults }
{
    let mut visitor = Visitor {
        number: hall.count,
        conn,
        conversation: Conversation::new(alloc),
    };
    hall.count += 1;
    if !has_room(hall) {
        tell(&mut visitor.conn, away);
        return poller.done(visitor.conn);
    }
    match poller.watch(&mut visitor.conn, hall.seats.vacant_key()) {
        Ok(()) => {
            hall.seats.insert_reserved(visitor);
        }
        Err(_) => poller.done(visitor.conn),
    }
}

// Whether one more connection may be served.
fn has_room<C>(hall: &Hall<C>) -> bool
    ensures some { IsTrue result → (slab_len hall.now.seats < hall.now.most) × HasRoomFor hall.now.seats 1 }
    ensures none { result ≡ false → (hall.now.most ≤ slab_len hall.now.seats)
        ⊎ (slab_len hall.now.seats ≡ hall.now.seats.capacity) }
{
    if hall.seats.len() >= hall.most {
        return false;
    }
    hall.seats.len() != hall.seats.capacity()
}

// Serves the connection at this key, if there is one. The clerk has room.
fn serve_ready<P: Readiness, K: Pages>(
    alloc: Global,
    routes: &Routes,
    site: &Site,
    clerk: &mut K,
    poller: &mut P,
    hall: &mut Hall<P::Conn>,
    key: usize,
)
    requires { (K.begun clerk.old).has_room (K.talks clerk.old) ≡ true }
    ensures stands { (away : List ℕ) → KeepsStanding
        (record { terms = record { port = site.now; refusal = K.refusal }; away = away })
        P.Conn.seen K.shows
        (record { talks = K.talks clerk.old; start = K.begun clerk.old })
        (record { talks = K.talks clerk.new; start = K.begun clerk.new })
        (P.seen poller.old) (P.seen poller.new) (P.back poller.old) (P.back poller.new) hall.old hall.new }
    ensures watched { AreWatchedBut P.Conn.seen key (P.seen poller.old).awaited hall.old.seats
        → AreWatched P.Conn.seen (P.seen poller.new).awaited hall.new.seats }
    ensures calls { (P.seen poller.new).calls ≡ (P.seen poller.old).calls }
    ensures most { hall.new.most ≡ hall.old.most }
    ensures faults { (P.seen poller.old).faults ≤ (P.seen poller.new).faults }
{
    let Some(mut visitor) = hall.seats.try_remove(key) else {
        return;
    };
    let step = advance(alloc, routes, site, clerk, &mut visitor);
    match last_step(poller, &mut visitor.conn, step, key) {
        Some(_) => poller.done(visitor.conn),
        None => {
            hall.seats.insert_reserved(visitor);
        }
    }
}

// Why a connection is served no further behind such a step, if so. One that may go on is watched again, and one that
// waits is laid to rest.
fn last_step<P: Readiness>(
    poller: &mut P,
    conn: &mut P::Conn,
    step: Step,
    key: usize,
) -> Option<Left>
    ensures conn { P.Conn.seen conn.new
        ≡ record (P.Conn.seen conn.old) { marks = (P.Conn.seen conn.new).marks; watch = (P.Conn.seen conn.new).watch } }
    ensures key { IfNone result (((P.Conn.seen conn.old).watch.key ≡ Some key)
        → IsSameWatch (P.Conn.seen conn.old).watch (P.Conn.seen conn.new).watch) }
    ensures vain { (flow : FlowView) → IsStep (P.Conn.seen conn.old) flow step
        → (P.Conn.seen conn.new).watch.vain ≡ (P.Conn.seen conn.old).watch.vain }
    ensures turn { IfNone result ((flow : FlowView) → IsStep (P.Conn.seen conn.old) flow step
        → IsInTurn (P.seen poller.new).awaited key (P.Conn.seen conn.new) flow) }
    ensures why { IfSome result (λ left. (flow : FlowView) → IsStep (P.Conn.seen conn.old) flow step
        → IsLeft (P.seen poller.new).idle (P.Conn.seen conn.new) flow left) }
    ensures awaited { (other : ℕ) → IsAwaited (P.seen poller.old).awaited other
        → IsAwaited (P.seen poller.new).awaited other }
    ensures back { P.back poller.new ≡ P.back poller.old }
    ensures idle { (P.seen poller.new).idle ≡ (P.seen poller.old).idle }
    ensures came { (P.seen poller.new).came ≡ (P.seen poller.old).came }
    ensures calls { (P.seen poller.new).calls ≡ (P.seen poller.old).calls }
    ensures faults { (P.seen poller.old).faults ≤ (P.seen poller.new).faults }
{
    match step {
        Step::Again => match poller.watch(conn, key) {
            Ok(()) => None,
            Err(_) => Some(Left::Unwatched),
        },
        Step::Waits => {
            poller.rest(conn, key);
            None
        }
        Step::Over(left) => Some(left),
    }
}

// Hands the connection at this key back, if there is one; nothing happened at it for too long.
fn dismiss<P: Readiness>(poller: &mut P, hall: &mut Hall<P::Conn>, key: usize)
    ensures stands { (house : House) (before : ReadySeen) → WasIdle key before (P.seen poller.old)
        → StaysStanding house P.Conn.seen
        before (P.seen poller.new) (P.back poller.old) (P.back poller.new) hall.old hall.new }
    ensures watched { AreWatched P.Conn.seen (P.seen poller.old).awaited hall.old.seats
        → AreWatched P.Conn.seen (P.seen poller.new).awaited hall.new.seats }
    ensures calls { (P.seen poller.new).calls ≡ (P.seen poller.old).calls }
    ensures most { hall.new.most ≡ hall.old.most }
    ensures faults { (P.seen poller.new).faults ≡ (P.seen poller.old).faults }
{
    if let Some(visitor) = hall.seats.try_remove(key) {
        poller.done(visitor.conn);
    }
}
