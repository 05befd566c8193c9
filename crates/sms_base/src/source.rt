//! Where bytes come from.
ghost use Rattle.std.specs.Prelude.{◌≡◌, List, None, ℕ};
ghost use Rattle.std.specs.declared.option.Option.{Option};
ghost use Rattle.std.specs.Io.{ReadsAtMost};
ghost use Rattle.std.specs.Io.KnownBytes.{ReadConsumes};
ghost use Rattle.desk_common.specs.Causes.{HasCause};
ghost use Rattle.sms_base.specs.Beside.{Beside, ReadMoment, no_half, one_moment_more};
ghost use Rattle.sms_base.specs.Counts.{one_call_more};

use thiserror::Error;

/// A fault of the outside.
#[derive(Clone, Copy, Debug, PartialEq, Eq, Error)]
#[error("a fault of the outside")]
pub struct Failed;

/// How a reading ends without all bytes.
#[derive(Clone, Copy, Debug, PartialEq, Eq, Error)]
pub enum ReadEnd {
    #[error("a fault of the source")]
    Failed,
    #[error("more bytes came than are allowed")]
    TooLong,
    #[error("no memory is left")]
    NoMemory,
}

/// Where bytes come from, in order, until they end.
pub trait Source {
    /// The bytes that are left to read, where they are told.
    ghost left: { Self → Option (List ℕ) };

    /// How often a read has failed.
    ghost read_faults: { Self → ℕ };

    /// How many reads were made, where they are told.
    ghost reads: { Self → Option ℕ } = { λ _. None };

    /// The link at each read that was made, where that is told.
    ghost moments: { Self → Option (List ReadMoment) } = { λ _. None };

    /// The other half of a link, which a read never changes.
    ghost beside_reading: { Self → Beside } = { λ _. no_half };

    /// Reads the next bytes into the front of the buffer, and answers how many. A read of none into
    /// a buffer that isn't empty is the end of the input.
    fn read(&mut self, buf: &mut [u8]) -> Result<usize, Failed>
        ensures bound { ReadsAtMost result buf.new }
        ensures bytes { ReadConsumes (left self.old) (left self.new) result buf.new }
        ensures reads { reads self.new ≡ one_call_more (reads self.old) }
        ensures moments { moments self.new ≡ one_moment_more (moments self.old)
            (record { left = left self.old; taken = (beside_reading self.old).bytes }) }
        ensures beside { beside_reading self.new ≡ beside_reading self.old }
        ensures cause { HasCause (read_faults self.old) (read_faults self.new) result };
}
