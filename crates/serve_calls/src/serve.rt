//! The top call of the served desk.
ghost use Rattle.std.specs.Prelude.{◌≡◌, ◌≤◌, ◌↔◌, ◌⊎◌, [], ◌∷◌, ◌++◌, List, None, Some, true, false, length, map};
ghost use Rattle.std.specs.Prelude.{string_bytes, IfOk, IfSome, OnErr};
ghost use Rattle.sms_keeper.specs.Tables.{AreSame, no_rows};
ghost use Rattle.desk_law.specs.Records.{empty_opening};
ghost use Rattle.desk_words.specs.Serving.{serving_in};
ghost use Rattle.desk_common.specs.Limits.{most_workers};
ghost use Rattle.desk_words.specs.declared.served.ServeWords.{ServeWords as Asked};
ghost use Rattle.serve_calls.specs.OneHistory.{IsOneHistory, WasHeard};
ghost use Rattle.serve_calls.specs.ServedText.{served_text};
ghost use Rattle.serve_calls.specs.ServeEnds.{AllowsStatus, AreServed, IsServeEnd, IsTold, WereServed, WereUnasked};
ghost use Rattle.serve_calls.specs.ServeEnds.{leaves_sink};
ghost use Rattle.serve_calls.specs.Seen.{seen_door, seen_link, seen_sink};
ghost use Rattle.desk_calls.specs.Headline.{seen_keeper};

use crate::alone::serve_alone;
use crate::connections::served_text;
use crate::served_doors::{DoorVisits, ServedDoors};
use crate::sharing::serve_shared;
use crate::status::ServeStatus;
use desk_calls::new_is_lawful;
use desk_common::Items;
use desk_words::serve_words;
use serve_door::{DoorEnd, Visits};
use sms_base::{Accept, Sink, write_all};
use sms_core::Core;
use sms_desk::Gate;
use sms_keeper::Keeper;
use std::alloc::{AllocError, Global};
use std::sync::Wait;
use std::thread::Threads;

/// Does what the words of the command line ask: serves a new desk over a keeper of empty tables to the links of the
/// doors, one door a worker, and writes a line for each connection to the sink. It hands back the desk's core, the
/// doors and their visits; where no door was asked for a link there are none. It waits where a door, a link or the gate
/// waits, and where several workers wait for each other's turns (docs/manual/http.md, "The program").
pub fn serve_main<
    A: Accept + Drop + Send,
    K: Sink,
    P: Keeper + Send,
    R: Threads + Wait + Sync,
    G: Gate + Sync,
>(
    alloc: Global,
    rt: &R,
    words: &[String],
    doors: Vec<A>,
    out: &mut K,
    keeper: P,
    gate: &G,
) -> (ServeStatus, Core<P>, Vec<A>, DoorVisits)
where
    A::Conn: Send,
    requires tables { IfSome (P.told keeper) (λ rows. AreSame rows no_rows) }
    requires doors { (asked : Asked) → serving_in (map string_bytes words.now) ≡ Some asked
        → length doors.items ≡ asked.workers }
    ensures words { result.0 ≡ ServeStatus.BadWords ↔ (serving_in (map string_bytes words.now) ≡ None) }
    ensures unserved { result.0 ≡ ServeStatus.BadWords → (result.2.items ≡ doors.items) × (result.3 ≡ []) }
    ensures unrun { result.0 ≡ ServeStatus.BadWords → result.1.keeper ≡ keeper }
    ensures unwritten { leaves_sink result.0 ≡ true → out.new ≡ out.old }
    ensures opening { result.1.opening ≡ empty_opening }
    ensures history { WasHeard
        (seen_keeper P.told P.count keeper)
        (seen_keeper P.told P.count result.1.keeper)
        result.3 result.1.journal }
    ensures ends { (asked : Asked) → serving_in (map string_bytes words.now) ≡ Some asked →
        WereUnasked doors.items result.2.items keeper result.1.keeper result.3 result.0
        ⊎ WereServed
        (seen_link A.Conn.left A.Conn.reads A.Conn.read_faults A.Conn.taken A.Conn.write_faults)
        asked.connections
        (map (seen_door A.asked A.given A.ended A.door_faults A.link_faults A.waiting A.back) doors.items)
        (map (seen_door A.asked A.given A.ended A.door_faults A.link_faults A.waiting A.back) result.2.items)
        result.3 (length result.1.journal)
        (seen_sink K.taken K.write_faults out.old)
        (seen_sink K.taken K.write_faults out.new)
        result.0 }
{
    match serve_words(words) {
        Some(asked) => serve_doors(alloc, rt, asked.connections, doors, out, keeper, gate),
        None => {
            let core = new_core(alloc, keeper);
            (ServeStatus::BadWords, core, doors, Items::new(alloc))
        }
    }
}

// Serves a new desk over the keeper to the links of the doors, and writes the text of the visits.
fn serve_doors<
    A: Accept + Drop + Send,
    K: Sink,
    P: Keeper + Send,
    R: Threads + Wait + Sync,
    G: Gate + Sync,
>(
    alloc: Global,
    rt: &R,
    most: u32,
    doors: Vec<A>,
    out: &mut K,
    keeper: P,
    gate: &G,
) -> (ServeStatus, Core<P>, Vec<A>, DoorVisits)
where
    A::Conn: Send,
    requires tables { IfSome (P.told keeper) (λ rows. AreSame rows no_rows) }
    requires doors { (1 ≤ length doors.items) × (length doors.items ≤ most_workers) }
    ensures words { result.0 ≡ ServeStatus.BadWords → ⊥ }
    ensures unwritten { leaves_sink result.0 ≡ true → out.new ≡ out.old }
    ensures opening { result.1.opening ≡ empty_opening }
    ensures history { WasHeard
        (seen_keeper P.told P.count keeper)
        (seen_keeper P.told P.count result.1.keeper)
        result.3 result.1.journal }
    ensures ends { WereUnasked doors.items result.2.items keeper result.1.keeper result.3 result.0
        ⊎ WereServed
        (seen_link A.Conn.left A.Conn.reads A.Conn.read_faults A.Conn.taken A.Conn.write_faults)
        most
        (map (seen_door A.asked A.given A.ended A.door_faults A.link_faults A.waiting A.back) doors.items)
        (map (seen_door A.asked A.given A.ended A.door_faults A.link_faults A.waiting A.back) result.2.items)
        result.3 (length result.1.journal)
        (seen_sink K.taken K.write_faults out.old)
        (seen_sink K.taken K.write_faults out.new)
        result.0 }
{
    let mut doors = doors;
    let (served, core) = serve_new(alloc, rt, most, &mut doors, keeper, gate);
    match served {
        Ok(ServedDoors { visits, ends }) => {
            let entries = core.journal().len() as u64;
            let status = write_visits(alloc, &ends, visits.as_slice(), entries, out);
            (status, core, doors, visits)
        }
        Err(_) => (ServeStatus::NoMemory, core, doors, Items::new(alloc)),
    }
}

// A new desk over the keeper; nothing was heard.
fn new_core<P: Keeper>(alloc: Global, keeper: P) -> Core<P>
    requires tables { IfSome (P.told keeper) (λ rows. AreSame rows no_rows) }
    ensures heard { WasHeard
        (seen_keeper P.told P.count keeper)
        (seen_keeper P.told P.count result.keeper)
        [] result.journal }
    ensures opening { result.opening ≡ empty_opening }
    ensures journal { result.journal ≡ [] }
    ensures keeper { result.keeper ≡ keeper }
    ensures mark { result.mark ≡ P.count keeper }
{
    // A fact for the proof; nothing runs.
    new_is_lawful();
    let core = Core::new(alloc, keeper);
    // A fact for the proof; nothing changes.
    let _journal = core.journal();
    core
}

// Serves a new desk over the keeper to the links of the doors.
fn serve_new<A: Accept + Drop + Send, P: Keeper + Send, R: Threads + Wait + Sync, G: Gate + Sync>(
    alloc: Global,
    rt: &R,
    most: u32,
    doors: &mut Vec<A>,
    keeper: P,
    gate: &G,
) -> (Result<ServedDoors, AllocError>, Core<P>)
where
    A::Conn: Send,
    requires tables { IfSome (P.told keeper) (λ rows. AreSame rows no_rows) }
    requires count { (1 ≤ length doors.old.items) × (length doors.old.items ≤ most_workers) }
    ensures served { IfOk result.0 (λ found. AreServed
        (seen_link A.Conn.left A.Conn.reads A.Conn.read_faults A.Conn.taken A.Conn.write_faults)
        most
        (map (seen_door A.asked A.given A.ended A.door_faults A.link_faults A.waiting A.back) doors.old.items)
        (map (seen_door A.asked A.given A.ended A.door_faults A.link_faults A.waiting A.back) doors.new.items)
        found.visits found.ends.items) }
    ensures heard { IfOk result.0 (λ found. WasHeard
        (seen_keeper P.told P.count keeper)
        (seen_keeper P.told P.count result.1.keeper)
        found.visits result.1.journal) }
    ensures opening { result.1.opening ≡ empty_opening }
    ensures unheard { OnErr result.0 (WasHeard
        (seen_keeper P.told P.count keeper)
        (seen_keeper P.told P.count result.1.keeper)
        [] result.1.journal) }
    ensures unasked { OnErr result.0 ((doors.new ≡ doors.old) × (result.1.keeper ≡ keeper)) }
{
    // A fact for the proof; nothing runs.
    new_is_lawful();
    let core = new_core(alloc, keeper);
    let (served, core) = serve_core(alloc, rt, most, doors, core, gate);
    // A fact for the proof; nothing changes.
    let _journal = core.journal();
    (served, core)
}

// Serves the desk of a new core to the links of the doors: of one door by the core itself.
fn serve_core<A: Accept + Drop + Send, P: Keeper + Send, R: Threads + Wait + Sync, G: Gate + Sync>(
    alloc: Global,
    rt: &R,
    most: u32,
    doors: &mut Vec<A>,
    core: Core<P>,
    gate: &G,
) -> (Result<ServedDoors, AllocError>, Core<P>)
where
    A::Conn: Send,
    requires count { (1 ≤ length doors.old.items) × (length doors.old.items ≤ most_workers) }
    requires new { core.journal ≡ [] }
    ensures served { IfOk result.0 (λ found. AreServed
        (seen_link A.Conn.left A.Conn.reads A.Conn.read_faults A.Conn.taken A.Conn.write_faults)
        most
        (map (seen_door A.asked A.given A.ended A.door_faults A.link_faults A.waiting A.back) doors.old.items)
        (map (seen_door A.asked A.given A.ended A.door_faults A.link_faults A.waiting A.back) doors.new.items)
        found.visits found.ends.items) }
    ensures once { IfOk result.0 (λ found. IsOneHistory found.visits result.1.journal) }
    ensures opening { result.1.opening ≡ core.opening }
    ensures mark { result.1.mark ≡ core.mark }
    ensures unserved { OnErr result.0 ((doors.new ≡ doors.old) × (result.1 ≡ core)) }
{
    if doors.len() == 1 {
        serve_alone(alloc, most, doors, core)
    } else {
        serve_shared(alloc, rt, most, doors, core, gate)
    }
}

// Writes the text of the visits of doors that ended so, unless memory was wanting.
fn write_visits<K: Sink>(
    alloc: Global,
    ends: &[DoorEnd],
    visits: &[Visits],
    entries: u64,
    out: &mut K,
) -> ServeStatus
    ensures words { result ≡ ServeStatus.BadWords → ⊥ }
    ensures unwritten { leaves_sink result ≡ true → out.new ≡ out.old }
    ensures ends { IsServeEnd ends.now
        (seen_sink K.taken K.write_faults out.old)
        (seen_sink K.taken K.write_faults out.new)
        (served_text visits.now entries) result }
{
    match status_of(ends) {
        Some(done) => write_text(alloc, done, visits, entries, out),
        None => ServeStatus::NoMemory,
    }
}

// The status where the whole text is written of doors that ended so; none where memory was wanting at one.
fn status_of(ends: &[DoorEnd]) -> Option<ServeStatus>
    ensures { IfSome result (λ done. AllowsStatus ends.now done) }
{
    let mut done = ServeStatus::Done;
    for end in ends {
        done = status_with(done, *end)?;
    }
    Some(done)
}

// The status where one more door ended so.
fn status_with(done: ServeStatus, end: DoorEnd) -> Option<ServeStatus>
    ensures { (ends : List DoorEnd) → AllowsStatus ends done →
        IfSome result (λ then. AllowsStatus (ends ++ end ∷ []) then) }
{
    match end {
        DoorEnd::Served | DoorEnd::Ended => Some(done),
        DoorEnd::AcceptFault => Some(ServeStatus::AcceptFault),
        DoorEnd::NoMemory => None,
    }
}

// Writes the text of visits, and answers the status where the whole of it was written.
fn write_text<K: Sink>(
    alloc: Global,
    done: ServeStatus,
    visits: &[Visits],
    entries: u64,
    out: &mut K,
) -> ServeStatus
    ensures told { IsTold done
        (seen_sink K.taken K.write_faults out.old)
        (seen_sink K.taken K.write_faults out.new)
        (served_text visits.now entries) result }
    ensures unwritten { leaves_sink done ≡ false → leaves_sink result ≡ true → out.new ≡ out.old }
{
    let Ok(text) = served_text(alloc, visits, entries) else {
        return ServeStatus::NoMemory;
    };
    match write_all(out, &text) {
        Ok(()) => done,
        Err(_) => ServeStatus::WriteFault,
    }
}
