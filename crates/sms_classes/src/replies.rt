//! What a job is told where a classification stops.
ghost use Rattle.std.specs.Prelude.{◌≡◌, MatchResult};
ghost use Rattle.desk_law.specs.Classification.{Classes, answer_of, trace_of};

use desk_common::Shared;
use sms_construct::{Reply, Stop, Trace};

/// The reply where a classification stops, with what the routines wrote; where it is done, that is handed back
/// (docs/manual/rules.md, "Classification").
pub fn stop_reply(stop: Stop, trace: Shared<Trace>) -> Result<Shared<Trace>, Reply>
    ensures { (classes : Classes) → trace_of classes ≡ trace →
        MatchResult (answer_of stop classes) (λ done. result ≡ Ok trace) (λ reply. result ≡ Err reply) }
{
    match stop {
        Stop::Done => Ok(trace),
        Stop::Unmanaged => Err(Reply::NotManaged { trace }),
        Stop::Exit { kind, code } => Err(Reply::Exit { kind, code, trace }),
        Stop::Unknown { kind, name } => Err(Reply::UnknownClass { kind, name, trace }),
        Stop::NoGroup => Err(Reply::NoGroup { trace }),
    }
}
