//! Answers to numbers that came before.
ghost use Rattle.std.specs.Prelude.{◌≡◌, IfOk, IfSome, MatchOption};
ghost use Rattle.desk_records.specs.Recall.{IsUnknown, Recalls};

use sms_construct::{Answer, Reply, Request};
use sms_keeper::{Kept, RequestLog};
use std::alloc::AllocError;

/// The answer, at this place of the journal, to a request whose number is below its floor or came before, and
/// `None` where the number is fresh (docs/manual/records.md, "Kept replies"); or want of memory.
pub fn recall(log: &RequestLog, request: &Request, place: u64) -> Result<Option<Answer>, AllocError>
    ensures known { IfOk result (λ recalled. MatchOption recalled (IsUnknown log.now request.now)
        (λ answer. Recalls log.now request.now answer)) }
    ensures place { IfOk result (λ recalled. IfSome recalled (λ answer. answer.place ≡ place)) }
{
    match log.lookup(request) {
        Kept::New => Ok(None),
        Kept::Same { first, reply } => Ok(Some(Answer {
            place,
            first,
            reply: reply.copy()?,
        })),
        Kept::Other { first } => Ok(Some(Answer {
            place,
            first: place,
            reply: Reply::Reused { first },
        })),
        Kept::Below { floor } => Ok(Some(Answer {
            place,
            first: place,
            reply: Reply::Below { floor },
        })),
    }
}
