// A step in a turn.
ghost use Rattle.std.specs.Prelude.{◌≡◌};
ghost use Rattle.desk_law.specs.Kept.{is_entered};
ghost use Rattle.desk_signing.specs.Signing.{signed};
ghost use Rattle.sms_desk.specs.Signed.{Adds, list_of};
ghost use Rattle.sms_desk.specs.Seats.{IsWorkFor};

use crate::signed_core::SignedCore;
use acs_tree::Slate;
use desk_signing::Event;
use sms_construct::{Answer, Fate, Reply, Request};
use sms_core::Work;
use sms_keeper::Keeper;
use turn_lock::Journaled;

impl<P: Keeper> Journaled<Event> for SignedCore<P> {
    ghost journal = { λ c. signed c.core.opening c.core.mark c.before c.core.journal c.numbers.items };
}

impl<P: Keeper> SignedCore<P> {
    /// Answers a request for the seat of this number.
    pub fn step(&mut self, number: u32, request: &Request, work: Work, slate: &mut Slate) -> Answer
        requires { IsWorkFor (list_of self.old) request.now slate.old work }
        ensures { Adds (list_of self.old) (list_of self.new) number request.now result }
    {
        let SignedCore {
            core,
            before: _,
            numbers,
        } = self;
        if numbers.reserve(1).is_err() {
            return no_memory();
        }
        let answer = core.step(request, work, slate);
        if has_entry(&answer) {
            numbers.push_reserved(number);
            return answer;
        }
        answer
    }
}

// Whether the answer comes with an entry.
fn has_entry(answer: &Answer) -> bool
    ensures { result ≡ is_entered answer.now.reply }
{
    match answer.reply.fate() {
        Fate::NoEntry => false,
        Fate::Unkept | Fate::Kept => true,
    }
}

/// The answer where memory is wanting.
pub fn no_memory() -> Answer
    ensures { result ≡ record { place = 0; first = 0; reply = Reply.Memory } }
{
    Answer {
        place: 0,
        first: 0,
        reply: Reply::Memory,
    }
}
