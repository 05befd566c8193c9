//! How a run of the desk ends.
ghost use Rattle.std.specs.Prelude.{◌≡◌};
ghost use Rattle.desk_calls.specs.ExitStatus.{exit_status_of};

use sms_script::ScriptErr;

/// How a run of the desk ends; docs/manual/script.md has the cause of each.
#[derive(Clone, Copy, Debug, PartialEq, Eq)]
pub enum RunStatus {
    /// The script was read to its end, and the whole text of its answers was written.
    Done,
    /// The words of the command line are none that the desk knows.
    BadWords,
    /// The script couldn't be read.
    ReadFault,
    /// The text couldn't be written; its front may have been.
    WriteFault,
    /// The script has a fault; nothing was run.
    Script(ScriptErr),
    /// The script has more than 16,777,216 bytes; nothing was run.
    TooLong,
    /// Memory was wanting; nothing was written.
    NoMemory,
}

impl RunStatus {
    /// The exit status of the program.
    pub fn code(&self) -> u8
        ensures { result ≡ exit_status_of self.now }
    {
        match self {
            RunStatus::Done => 0,
            RunStatus::BadWords => 2,
            RunStatus::ReadFault => 3,
            RunStatus::WriteFault => 4,
            RunStatus::Script(_) => 5,
            RunStatus::TooLong => 6,
            RunStatus::NoMemory => 7,
        }
    }
}
