//! The desk of a store, served through several journals.
ghost use Rattle.std.specs.Prelude.{◌≡◌, ◌≤◌, ◌⊎◌, [], false, true, IfErr, IfOk, OnErr, OnOk};
ghost use Rattle.sms_base.specs.Counts.{one_call_more};
ghost use Rattle.sms_core.specs.Core.{last_place};
ghost use Rattle.page_text.specs.RefusalText.{said_refusal};
ghost use Rattle.sms_open.specs.declared.open_err.OpenErr.{OpenErr as Refusal};
ghost use Rattle.page_clerk.specs.Shows.{begun_with};
ghost use Rattle.serve_poll.specs.Halls.{AreWatched};
ghost use Rattle.smsd_serving.specs.Epochs.{IsLeft, IsOpenedBehind, IsUnopened, WasKept, WereAsked};
ghost use Rattle.smsd_serving.specs.Inner.Serving.{EndsServing, GoesOnServing, IsRenewed};

use crate::room::{Room, take_room};
use crate::serving_end::ServingEnd;
use acs_tree::Slate;
use http_flow::Pages;
use page_clerk::PageClerk;
use ready_wires::Readiness;
use serve_poll::{Hall, LoopEnd, serve_event};
use sms_keeper::{KeeperErr, Stored};
use sms_open::{OpenErr, reopen_behind};
use std::alloc::Global;

/// Why serving ended, and the connections that are still served.
#[derive(Drop)]
pub struct Kept<C> {
    pub end: ServingEnd,
    pub hall: Hall<C>,
}

/// Serves the desk that goes on from the tables of the keeper, which is made ready first, to the connections that come,
/// at most `most` at once, until so many events came. Where its journal has no room for one more question, a desk goes
/// on from the tables that it left, to the same connections. It hands the keeper back; or says why there is no such
/// desk, with the keeper (docs/manual/smsd.md, "A full journal").
pub fn keep_serving<P: Stored, R: Readiness>(
    alloc: Global,
    port: u16,
    poller: &mut R,
    keeper: P,
    most: usize,
    turns: u64,
) -> Result<(Kept<R::Conn>, P), (P, OpenErr)>
    ensures served { IfOk result (λ left. WasKept P.Keeper.told P.Keeper.count P.damage R.Conn.seen port keeper left.1
        (R.seen poller.old) (R.seen poller.new) (R.back poller.old) (R.back poller.new) left.0.hall left.0.end) }
    ensures watched { IfOk result (λ left. AreWatched R.Conn.seen (R.seen poller.new).awaited left.0.hall.seats) }
    ensures asked { IfOk result (λ left. WereAsked turns (R.seen poller.old) (R.seen poller.new) left.0.hall.count
        left.0.end) }
    ensures most { IfOk result (λ left. left.0.hall.most ≡ most) }
    ensures unserved { OnErr result (poller.new ≡ poller.old) }
    ensures unopened { IfErr result (λ back.
        IsUnopened P.Keeper.told P.Keeper.count P.damage keeper back.0 back.1) }
{
    let Ok((room, slate)) = take_room(alloc, port) else {
        return Err((keeper, OpenErr::NoMemory));
    };
    let Ok(hall) = Hall::with_room(alloc, most) else {
        return Err((keeper, OpenErr::NoMemory));
    };
    match open_ready(alloc, keeper, slate) {
        Ok(clerk) => Ok(serve_epochs(alloc, poller, clerk, room, hall, turns)),
        Err(back) => Err(back),
    }
}

// A clerk of a desk that goes on from the tables of the keeper, which is made ready first; or why there is none.
fn open_ready<P: Stored>(
    alloc: Global,
    keeper: P,
    slate: Slate,
) -> Result<PageClerk<P>, (P, OpenErr)>
    ensures start { IfOk result (λ clerk. IsOpenedBehind P.Keeper.told P.Keeper.count keeper 0 clerk.start) }
    ensures talks { IfOk result (λ clerk. clerk.talks ≡ []) }
    ensures roomy { IfOk result (λ clerk. (begun_with clerk.start).has_room clerk.talks ≡ true) }
    ensures unopened { IfErr result (λ back.
        IsUnopened P.Keeper.told P.Keeper.count P.damage keeper back.0 back.1) }
{
    let mut keeper = keeper;
    match keeper.ready() {
        Ok(()) => open_clerk(alloc, keeper, slate, 0),
        Err(KeeperErr::Failed) => Err((keeper, OpenErr::Failed)),
        Err(KeeperErr::NoMemory) => Err((keeper, OpenErr::NoMemory)),
    }
}

// A clerk of a desk that goes on from the tables of the keeper, and behind this place; or why there is none.
fn open_clerk<P: Stored>(
    alloc: Global,
    keeper: P,
    slate: Slate,
    place: u64,
) -> Result<PageClerk<P>, (P, OpenErr)>
    ensures start { IfOk result (λ clerk. IsOpenedBehind P.Keeper.told P.Keeper.count keeper place clerk.start) }
    ensures talks { IfOk result (λ clerk. clerk.talks ≡ []) }
    ensures roomy { IfOk result (λ clerk. (begun_with clerk.start).has_room clerk.talks ≡ true) }
    ensures unopened { IfErr result (λ back.
        IsUnopened P.Keeper.told P.Keeper.count P.damage keeper back.0 back.1) }
{
    match reopen_behind(alloc, keeper, place) {
        Ok(core) => Ok(PageClerk::new(alloc, core, slate)),
        Err(back) => Err(back),
    }
}

// The keeper of the clerk's core, the slate, and the place of the last entry. The journal and the talks are freed.
fn take_keeper<P: Stored>(clerk: PageClerk<P>) -> (P, Slate, u64)
    ensures keeper { result.0 ≡ clerk.core.keeper }
    ensures place { result.2 ≡ last_place clerk.core }
    ensures left { IsLeft P.Keeper.told P.Keeper.count clerk.start clerk.core clerk.talks }
{
    let (core, slate, _) = clerk.into_parts();
    let place = core.last_place();
    let (keeper, _) = core.into_parts();
    (keeper, slate, place)
}

// Serves the connections that come, epoch by epoch, until so many events came.
fn serve_epochs<P: Stored, R: Readiness>(
    alloc: Global,
    poller: &mut R,
    clerk: PageClerk<P>,
    room: Room,
    hall: Hall<R::Conn>,
    turns: u64,
) -> (Kept<R::Conn>, P)
    requires away { room.away.items ≡ said_refusal 503 }
    requires none { clerk.talks ≡ [] }
    requires roomy { (begun_with clerk.start).has_room clerk.talks ≡ true }
    requires empty { hall.seats.slots ≡ [] }
    requires first { hall.count ≡ 0 }
    requires fits { hall.most ≤ hall.seats.capacity }
    ensures served { (keeper : P) → IsOpenedBehind P.Keeper.told P.Keeper.count keeper 0 clerk.start
        → WasKept P.Keeper.told P.Keeper.count P.damage R.Conn.seen room.site keeper result.1
        (R.seen poller.old) (R.seen poller.new) (R.back poller.old) (R.back poller.new) result.0.hall result.0.end }
    ensures watched { AreWatched R.Conn.seen (R.seen poller.new).awaited result.0.hall.seats }
    ensures asked { WereAsked turns (R.seen poller.old) (R.seen poller.new) result.0.hall.count result.0.end }
    ensures most { result.0.hall.most ≡ hall.most }
{
    let mut clerk = clerk;
    let mut hall = hall;
    let mut made = 0;
    while made < turns {
        made += 1;
        match serve_next(alloc, poller, clerk, &room, &mut hall) {
            Ok(next) => clerk = next,
            Err((end, keeper)) => return (Kept { end, hall }, keeper),
        }
    }
    let (keeper, _, _) = take_keeper(clerk);
    let end = ServingEnd::Loop(LoopEnd::Turns);
    (Kept { end, hall }, keeper)
}

// Does what one event asks. Says by which clerk the desk goes on; or why it doesn't, with the keeper.
fn serve_next<P: Stored, R: Readiness>(
    alloc: Global,
    poller: &mut R,
    clerk: PageClerk<P>,
    room: &Room,
    hall: &mut Hall<R::Conn>,
) -> Result<PageClerk<P>, (ServingEnd, P)>
    requires away { room.now.away.items ≡ said_refusal 503 }
    requires roomy { (begun_with clerk.start).has_room clerk.talks ≡ true }
    ensures goes_on { IfOk result (λ next. GoesOnServing P.Keeper.told P.Keeper.count R.Conn.seen room.now.site
        clerk next (R.seen poller.old) (R.seen poller.new) (R.back poller.old) (R.back poller.new) hall.old hall.new) }
    ensures roomy { IfOk result (λ next. (begun_with next.start).has_room next.talks ≡ true) }
    ensures ends { IfErr result (λ over. EndsServing P.Keeper.told P.Keeper.count R.Conn.seen room.now.site P.damage
        clerk over.1 (R.seen poller.old) (R.seen poller.new) (R.back poller.old) (R.back poller.new) hall.old hall.new
        over.0) }
    ensures watched { AreWatched R.Conn.seen (R.seen poller.old).awaited hall.old.seats
        → AreWatched R.Conn.seen (R.seen poller.new).awaited hall.new.seats }
    ensures calls { OnOk result ((R.seen poller.new).calls ≡ one_call_more (R.seen poller.old).calls) }
    ensures asked { IfErr result (λ over.
        WereAsked 1 (R.seen poller.old) (R.seen poller.new) hall.new.count over.0) }
    ensures over { IfErr result (λ over. over.0 ≡ ServingEnd.Loop LoopEnd.Turns → ⊥) }
    ensures faults { (R.seen poller.old).faults ≤ (R.seen poller.new).faults }
    ensures most { hall.new.most ≡ hall.old.most }
{
    let mut clerk = clerk;
    let end = serve_event(
        alloc,
        &room.routes,
        &room.site,
        &mut clerk,
        poller,
        hall,
        &room.away,
    );
    match end {
        LoopEnd::Turns => go_on(alloc, clerk),
        _ => Err(stop(clerk, end)),
    }
}

// That no further event is awaited, with the keeper.
fn stop<P: Stored>(clerk: PageClerk<P>, end: LoopEnd) -> (ServingEnd, P)
    ensures end { result.0 ≡ ServingEnd.Loop end }
    ensures keeper { result.1 ≡ clerk.core.keeper }
    ensures left { IsLeft P.Keeper.told P.Keeper.count clerk.start clerk.core clerk.talks }
{
    let (keeper, _, _) = take_keeper(clerk);
    (ServingEnd::Loop(end), keeper)
}

// The clerk; where it has no room, one that goes on from the tables that its core left, or why there is none, with the
// keeper.
fn go_on<P: Stored>(alloc: Global, clerk: PageClerk<P>) -> Result<PageClerk<P>, (ServingEnd, P)>
    ensures ok { IfOk result (λ next. (next ≡ clerk) ⊎ IsRenewed P.Keeper.told P.Keeper.count clerk next) }
    ensures err { IfErr result (λ over. (err : Refusal) × (over.0 ≡ ServingEnd.Unopened err)
        × IsUnopened P.Keeper.told P.Keeper.count P.damage clerk.core.keeper over.1 err) }
    ensures roomy { IfOk result (λ next. (begun_with next.start).has_room next.talks ≡ true) }
    ensures filled { OnErr result ((begun_with clerk.start).has_room clerk.talks ≡ false) }
    ensures left { OnErr result (IsLeft P.Keeper.told P.Keeper.count clerk.start clerk.core clerk.talks) }
{
    if clerk.has_room() {
        return Ok(clerk);
    }
    let (keeper, slate, place) = take_keeper(clerk);
    match open_clerk(alloc, keeper, slate, place) {
        Ok(next) => Ok(next),
        Err((keeper, err)) => Err((ServingEnd::Unopened(err), keeper)),
    }
}
