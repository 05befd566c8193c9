//! Where bytes go.
ghost use Rattle.std.specs.Prelude.{◌≡◌, ◌≤◌, ◌<◌, List, ℕ, length, IfOk};
ghost use Rattle.std.specs.declared.option.Option.{Option};
ghost use Rattle.std.specs.Io.KnownBytes.{WriteAppends};
ghost use Rattle.desk_common.specs.Causes.{HasCause};
ghost use Rattle.sms_base.specs.Beside.{Beside, no_half};

use crate::source::Failed;

/// Where bytes go, in order.
pub trait Sink {
    /// The bytes that were taken, where they are told.
    ghost taken: { Self → Option (List ℕ) };

    /// How often a write has failed.
    ghost write_faults: { Self → ℕ };

    /// The other half of a link, which a write never changes.
    ghost beside_writing: { Self → Beside } = { λ _. no_half };

    /// Takes bytes from the front of the piece, and answers how many.
    fn write(&mut self, piece: &[u8]) -> Result<usize, Failed>
        ensures bound { IfOk result (λ count. count ≤ length piece.now) }
        ensures some { IfOk result (λ count. 0 < length piece.now → 0 < count) }
        ensures bytes { WriteAppends (taken self.old) (taken self.new) result piece.now }
        ensures beside { beside_writing self.new ≡ beside_writing self.old }
        ensures cause { HasCause (write_faults self.old) (write_faults self.new) result };
}
