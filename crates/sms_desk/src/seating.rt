// How seats go to workers.
ghost use Rattle.std.specs.Prelude.{◌≡◌, ◌<◌, ◌≤◌, List, [], All, length, vec_capacity, vec_len};
ghost use Rattle.atomic_table.specs.Seated.{TableId};
ghost use Rattle.turn_lock.specs.Contract.{AreNumbered, IsNew};
ghost use Rattle.turn_lock.specs.declared.signed.Signed.{Signed as SignedEntry};
ghost use Rattle.desk_signing.specs.declared.event.Event.{Event as Told};
ghost use Rattle.desk_signing.specs.Signing.{IsLegalList, entries_in, opening_in};
ghost use Rattle.sms_desk.specs.Seats.{AreNumberedDown, HasNoAnswers, IsNewJob, IsOutfit};

use crate::job_seat::JobSeat;
use crate::outfit::Outfit;
use crate::signed_core::SignedCore;
use desk_signing::Event;
use sms_keeper::Keeper;
use std::alloc::Global;
use std::collections::VecDeque;
use turn_lock::Seats;

/// Each seat goes to a worker, the last one first.
pub fn seat_all<P: Keeper>(
    alloc: Global,
    seats: &mut Seats<SignedCore<P>, Event>,
    mut outfits: Vec<Outfit>,
    jobs: &mut Vec<JobSeat<P>>,
)
    requires room { (jobs.old.items ≡ []) × (vec_len jobs.old ≡ 0) × (vec_len seats.old ≤ vec_capacity jobs.old) }
    requires outfits { vec_len outfits ≡ vec_len seats.old }
    ensures emptied { (seats.new.items ≡ []) × (vec_len seats.new ≡ 0) ×
        (vec_capacity seats.new ≡ vec_capacity seats.old) }
    ensures count { length jobs.new.items ≡ length seats.old.items }
    ensures idle { All HasNoAnswers jobs.new.items }
    ensures new { (lock : TableId) (list : List (SignedEntry Told)) → 0 < length list → IsLegalList list →
        All (IsNew lock list) seats.old.items
        → All (IsOutfit (opening_in list) (entries_in list)) outfits.items → All (IsNewJob lock list) jobs.new.items }
    ensures numbers { AreNumbered seats.old.items → AreNumberedDown (length seats.old.items) jobs.new.items }
{
    while let Some(seat) = seats.pop() {
        let Some(outfit) = outfits.pop() else {
            unreachable!()
        };
        let Outfit { slate, held } = outfit;
        jobs.push_reserved(JobSeat {
            seat: Some(seat),
            slate,
            held,
            answers: VecDeque::new(alloc),
        });
    }
}
