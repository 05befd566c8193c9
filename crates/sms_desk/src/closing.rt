//! How a desk closes.
ghost use Rattle.std.specs.Prelude.{◌≡◌, ◌≤◌, ℕ, List, [], All, Contains, length, vec_capacity, vec_len};
ghost use Rattle.atomic_table.specs.Seated.{TableId};
ghost use Rattle.turn_lock.specs.Contract.{IsOf, Stands, numbers};
ghost use Rattle.turn_lock.specs.Views.{IsBy};
ghost use Rattle.turn_lock.specs.declared.signed.Signed.{Signed as SignedEntry};
ghost use Rattle.desk_signing.specs.declared.event.Event.{Event as Told};
ghost use Rattle.desk_signing.specs.Signing.{signed_last};
ghost use Rattle.sms_desk.specs.Seats.{AreAllJobs, IsJobOf, StandsJob, job_numbers};

use crate::desk::Desk;
use crate::job_seat::JobSeat;
use crate::job_seats::{JobSeats, SeatNumbers};
use crate::signed_core::SignedCore;
use desk_common::Items;
use desk_signing::Event;
use sms_core::Core;
use sms_keeper::Keeper;
use turn_lock::Seats;

impl<P: Keeper> Desk<P> {
    /// The core, and the numbers of the seats of the entries made since the desk opened. The signed list of these two
    /// begins with what each seat had seen; in it the entries of each seat's number are the seat's own, and each
    /// number is that of a seat. It waits for nobody and takes no memory.
    pub fn close(self, seats: JobSeats<P>) -> (Core<P>, SeatNumbers)
        requires { AreAllJobs self.lock.table.shared.table_id self.lock.table.shared.key.seats seats.jobs.items }
        ensures stands { All (StandsJob (signed_last result.0.opening result.0.mark result.0.journal result.1))
            seats.jobs.items }
        ensures by { All (IsBy (job_numbers seats.jobs.items))
            (signed_last result.0.opening result.0.mark result.0.journal result.1) }
        ensures few { length result.1 ≤ length result.0.journal }
    {
        let (jobs, mut room) = seats.take_apart();
        unseat_all(jobs, &mut room);
        let Desk { alloc: _, lock } = self;
        let SignedCore {
            core,
            before: _,
            numbers,
        } = lock.close(room);
        (core, Items::from_vec(numbers))
    }
}

impl<P: Keeper> JobSeats<P> {
    fn take_apart(self) -> (Vec<JobSeat<P>>, Seats<SignedCore<P>, Event>)
        ensures { (result.0 ≡ self.jobs) × (result.1 ≡ self.room) }
    {
        let JobSeats { jobs, room } = self;
        (jobs, room)
    }
}

// The workers' seats give back the lock's.
fn unseat_all<P: Keeper>(mut jobs: Vec<JobSeat<P>>, room: &mut Seats<SignedCore<P>, Event>)
    requires room { (room.old.items ≡ []) × (vec_len room.old ≡ 0) × (vec_len jobs ≤ vec_capacity room.old) }
    ensures count { length room.new.items ≡ length jobs.items }
    ensures lock { (lock : TableId) → All (IsJobOf lock) jobs.items → All (IsOf lock) room.new.items }
    ensures stands { (list : List (SignedEntry Told)) → All (Stands list) room.new.items →
        All (StandsJob list) jobs.items }
    ensures numbers { (k : ℕ) → Contains (numbers room.new.items) k → Contains (job_numbers jobs.items) k }
{
    while let Some(job) = jobs.pop() {
        let JobSeat { seat, .. } = job;
        let Some(seat) = seat else { unreachable!() };
        room.push_reserved(seat);
    }
}
