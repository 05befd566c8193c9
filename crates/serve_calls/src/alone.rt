//! A door that one worker serves.
ghost use Rattle.std.specs.Prelude.{◌≡◌, ◌≤◌, [], IfOk, OnErr, length, map, vec_capacity};
ghost use Rattle.serve_calls.specs.OneHistory.{IsOneHistory};
ghost use Rattle.serve_calls.specs.ServeEnds.{AreServed};
ghost use Rattle.serve_calls.specs.Seen.{seen_door, seen_link};

use crate::core_bench::CoreBench;
use crate::served_doors::ServedDoors;
use acs_tree::Slate;
use desk_common::Items;
use http_head::Routes;
use serve_door::{DoorEnd, Visits, serve_door};
use sms_base::Accept;
use sms_core::Core;
use sms_keeper::Keeper;
use std::alloc::{AllocError, Global};

/// Serves the desk of a new core to the links of the one door, at most `most` of them. Where memory to begin is wanting
/// the door is asked for no link.
pub fn serve_alone<A: Accept, P: Keeper>(
    alloc: Global,
    most: u32,
    doors: &mut Vec<A>,
    core: Core<P>,
) -> (Result<ServedDoors, AllocError>, Core<P>)
    requires count { length doors.old.items ≡ 1 }
    requires new { core.journal ≡ [] }
    ensures served { IfOk result.0 (λ found. AreServed
        (seen_link A.Conn.left A.Conn.reads A.Conn.read_faults A.Conn.taken A.Conn.write_faults)
        most
        (map (seen_door A.asked A.given A.ended A.door_faults A.link_faults A.waiting A.back) doors.old.items)
        (map (seen_door A.asked A.given A.ended A.door_faults A.link_faults A.waiting A.back) doors.new.items)
        found.visits found.ends.items) }
    ensures once { IfOk result.0 (λ found. IsOneHistory found.visits result.1.journal) }
    ensures opening { result.1.opening ≡ core.opening }
    ensures mark { result.1.mark ≡ core.mark }
    ensures unserved { OnErr result.0 ((doors.new ≡ doors.old) × (result.1 ≡ core)) }
{
    let Ok((routes, slate, mut all, mut ends)) = take_room(alloc) else {
        return (Err(AllocError), core);
    };
    let bench = CoreBench::new(core, slate);
    let (end, bench, visits) = serve_door(alloc, &routes, &mut doors[0], bench, most);
    all.push_reserved(visits);
    ends.push_reserved(end);
    let visits = Items::from_vec(all);
    (Ok(ServedDoors { visits, ends }), bench.into_core())
}

// The routes, room for what routines write, and room for the visits of one door and for why no further link was served.
fn take_room(alloc: Global) -> Result<(Routes, Slate, Vec<Visits>, Vec<DoorEnd>), AllocError>
    ensures visits { IfOk result (λ room. (room.2.items ≡ []) × (1 ≤ vec_capacity room.2)) }
    ensures ends { IfOk result (λ room. (room.3.items ≡ []) × (1 ≤ vec_capacity room.3)) }
{
    let routes = Routes::new(alloc)?;
    let slate = Slate::new(alloc)?;
    let visits = Vec::with_capacity(alloc, 1)?;
    let ends = Vec::with_capacity(alloc, 1)?;
    Ok((routes, slate, visits, ends))
}
