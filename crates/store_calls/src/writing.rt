//! Writing what was made of a store.
ghost use Rattle.std.specs.Prelude.{◌≡◌, List, ℕ, IfOk, OnErr, true};
ghost use Rattle.store_calls.specs.StoreLists.{seen_sink};
ghost use Rattle.store_calls.specs.Statuses.{leaves_sink};
ghost use Rattle.store_calls.specs.Written.{TextEnds};

use desk_calls::RunStatus;
use sms_base::{Sink, write_all};
use std::alloc::AllocError;

/// Writes a text, where there was memory for it.
pub fn write_made<K: Sink>(out: &mut K, text: Result<Vec<u8>, AllocError>) -> RunStatus
    ensures unwritten { leaves_sink result ≡ true → out.new ≡ out.old }
    ensures wanting { OnErr text (result ≡ RunStatus.NoMemory) }
    ensures ends { (whole : List ℕ) → IfOk text (λ bytes. bytes.items ≡ whole) →
        TextEnds whole (seen_sink K.taken K.write_faults out.old) (seen_sink K.taken K.write_faults out.new) result }
{
    match text {
        Ok(text) => write_bytes(out, &text),
        Err(_) => RunStatus::NoMemory,
    }
}

// Writes these bytes.
fn write_bytes<K: Sink>(out: &mut K, bytes: &[u8]) -> RunStatus
    ensures unwritten { leaves_sink result ≡ true → out.new ≡ out.old }
    ensures ends { TextEnds bytes.now (seen_sink K.taken K.write_faults out.old)
        (seen_sink K.taken K.write_faults out.new) result }
{
    match write_all(out, bytes) {
        Ok(()) => RunStatus::Done,
        Err(_) => RunStatus::WriteFault,
    }
}
