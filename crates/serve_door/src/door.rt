//! Serving the links of a door.
ghost use Rattle.serve_door.specs.Visits.{IsServedLink, WasServed, talks_of};

use crate::bench::Bench;
use crate::door_end::DoorEnd;
use crate::visit::{Visit, Visits};
use desk_common::Items;
use http_head::Routes;
use http_talk::serve_with;
use sms_base::Accept;
use std::alloc::Global;

// The most pieces that are read of a connection
const MAX_TURNS: u64 = 1_000_000;

/// Serves at most `most` links of the door, one after the other, each by a clerk of the bench, and hands each back to
/// the door. Room for a visit is taken before its link is asked for. It waits where the door, a link or a clerk waits
/// (docs/manual/http.md, "The program").
pub fn serve_door<A: Accept, B: Bench>(
    alloc: Global,
    routes: &Routes,
    door: &mut A,
    bench: B,
    most: u32,
) -> (DoorEnd, B, Visits)
    ensures served { WasServed
        (λ link. record {
          left = A.Conn.left link;
          reads = A.Conn.reads link;
          read_faults = A.Conn.read_faults link;
          taken = A.Conn.taken link;
          write_faults = A.Conn.write_faults link;
        })
        most
        (record {
          asked = A.asked door.old;
          given = A.given door.old;
          ended = A.ended door.old;
          door_faults = A.door_faults door.old;
          link_faults = A.link_faults door.old;
          waiting = A.waiting door.old;
          back = A.back door.old;
        })
        (record {
          asked = A.asked door.new;
          given = A.given door.new;
          ended = A.ended door.new;
          door_faults = A.door_faults door.new;
          link_faults = A.link_faults door.new;
          waiting = A.waiting door.new;
          back = A.back door.new;
        })
        result.2 result.0 }
    ensures bench { B.follows bench (talks_of result.2) result.1 }
{
    let mut bench = bench;
    let mut visits = Vec::new(alloc);
    for _ in 0..most {
        if visits.reserve(1).is_err() {
            return (DoorEnd::NoMemory, bench, Items::from_vec(visits));
        }
        let link = match door.accept() {
            Ok(Some(link)) => link,
            Ok(None) => return (DoorEnd::Ended, bench, Items::from_vec(visits)),
            Err(_) => return (DoorEnd::AcceptFault, bench, Items::from_vec(visits)),
        };
        let (visit, after) = serve_link(alloc, routes, door, bench, link);
        visits.push_reserved(visit);
        bench = after;
    }
    (DoorEnd::Served, bench, Items::from_vec(visits))
}

// Serves one link, and hands it back to the door.
fn serve_link<A: Accept, B: Bench>(
    alloc: Global,
    routes: &Routes,
    door: &mut A,
    bench: B,
    link: A::Conn,
) -> (Visit, B)
    ensures served { IsServedLink
        (λ link. record {
          left = A.Conn.left link;
          reads = A.Conn.reads link;
          read_faults = A.Conn.read_faults link;
          taken = A.Conn.taken link;
          write_faults = A.Conn.write_faults link;
        })
        (record {
          asked = A.asked door.old;
          given = A.given door.old;
          ended = A.ended door.old;
          door_faults = A.door_faults door.old;
          link_faults = A.link_faults door.old;
          waiting = A.waiting door.old;
          back = A.back door.old;
        })
        (record {
          asked = A.asked door.new;
          given = A.given door.new;
          ended = A.ended door.new;
          door_faults = A.door_faults door.new;
          link_faults = A.link_faults door.new;
          waiting = A.waiting door.new;
          back = A.back door.new;
        })
        link result.0 }
    ensures bench { B.follows bench result.0.talks result.1 }
{
    let mut link = link;
    let mut clerk = bench.seat(alloc);
    let end = serve_with(alloc, routes, &mut clerk, &mut link, MAX_TURNS);
    door.done(link);
    let (bench, talks) = B::back(clerk);
    (Visit { talks, end }, bench)
}
