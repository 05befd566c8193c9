//! How a desk opens.
ghost use Rattle.std.specs.Prelude.{◌≡◌, ◌<◌, ◌≤◌, [], IfOk, IfErr, All, length, vec_capacity, vec_len};
ghost use Rattle.desk_common.specs.Limits.{most_workers};
ghost use Rattle.desk_signing.specs.Signing.{signed};
ghost use Rattle.sms_desk.specs.Seats.{AreAllJobs, AreNumberedDown, HasNoAnswers, IsNewJob, IsOutfit};

use crate::desk::Desk;
use crate::holding::refresh;
use crate::job_seat::JobSeat;
use crate::job_seats::JobSeats;
use crate::outfit::Outfit;
use crate::seating::seat_all;
use crate::signed_core::SignedCore;
use acs_tree::Slate;
use sms_core::Core;
use sms_keeper::Keeper;
use std::alloc::{AllocError, Global};
use turn_lock::TurnLock;

impl<P: Keeper> Desk<P> {
    /// The desk over a core, with a seat for each of so many workers, which has seen the core's whole journal and
    /// holds what is active; or the core, where memory is wanting.
    pub fn new(
        alloc: Global,
        core: Core<P>,
        seats: usize,
    ) -> Result<(Desk<P>, JobSeats<P>), (Core<P>, AllocError)>
        requires { (0 < seats) × (seats ≤ most_workers) }
        ensures all { IfOk result (λ r.
            AreAllJobs r.0.lock.table.shared.table_id r.0.lock.table.shared.key.seats r.1.jobs.items) }
        ensures count { IfOk result (λ r. length r.1.jobs.items ≡ seats) }
        ensures new { IfOk result (λ r. All
            (IsNewJob r.0.lock.table.shared.table_id
            (signed core.opening core.mark (length core.journal) core.journal []))
            r.1.jobs.items) }
        ensures numbers { IfOk result (λ r. AreNumberedDown seats r.1.jobs.items) }
        ensures idle { IfOk result (λ r. All HasNoAnswers r.1.jobs.items) }
        ensures core { IfErr result (λ e. e.0 ≡ core) }
    {
        let Ok((outfits, mut jobs)) = room(alloc, &core, seats) else {
            return Err((core, AllocError));
        };
        let before = core.journal().len();
        let value = SignedCore {
            core,
            before,
            numbers: Vec::new(alloc),
        };
        match TurnLock::new(alloc, value, seats) {
            Ok((lock, mut room)) => {
                seat_all(alloc, &mut room, outfits, &mut jobs);
                Ok((Desk { alloc, lock }, JobSeats { jobs, room }))
            }
            Err((value, e)) => {
                let SignedCore { core, .. } = value;
                Err((core, e))
            }
        }
    }
}

// So many outfits for seats of a desk over the core, and room for as many seats.
fn room<P: Keeper>(
    alloc: Global,
    core: &Core<P>,
    count: usize,
) -> Result<(Vec<Outfit>, Vec<JobSeat<P>>), AllocError>
    ensures count { IfOk result (λ r. vec_len r.0 ≡ count) }
    ensures outfits { IfOk result (λ r. All (IsOutfit core.now.opening core.now.journal) r.0.items) }
    ensures jobs { IfOk result (λ r. (r.1.items ≡ []) × (vec_len r.1 ≡ 0) × (count ≤ vec_capacity r.1)) }
{
    let mut outfits = Vec::new(alloc);
    outfits.reserve(count)?;
    for _ in 0..count {
        outfits.push_reserved(outfit(alloc, core)?);
    }
    let mut jobs = Vec::new(alloc);
    jobs.reserve(count)?;
    Ok((outfits, jobs))
}

// What a seat of a desk over the core gets.
fn outfit<P: Keeper>(alloc: Global, core: &Core<P>) -> Result<Outfit, AllocError>
    ensures { IfOk result (λ outfit. IsOutfit core.now.opening core.now.journal outfit) }
{
    let slate = Slate::new(alloc)?;
    let mut held = None;
    refresh(core, &mut held)?;
    Ok(Outfit { slate, held })
}
