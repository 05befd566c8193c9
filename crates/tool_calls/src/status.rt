//! How a call of the translator ends.
ghost use Rattle.std.specs.Prelude.{◌≡◌};
ghost use Rattle.tool_calls.specs.ExitStatus.{exit_status_of};

use sms_script::ScriptErr;

/// How a call of the translator ends; docs/manual/tool.md has the cause of each.
#[derive(Clone, Copy, Debug, PartialEq, Eq)]
pub enum ToolStatus {
    /// The input was read to its end, and the whole text of the answer was written.
    Done,
    /// The same, and the answer is a fault of the input.
    FaultFound,
    /// The words of the command line are none that the translator knows.
    BadWords,
    /// The input couldn't be read.
    ReadFault,
    /// The text couldn't be written; its front may have been.
    WriteFault,
    /// The input has this fault as a script, and nothing was simulated. Its fault is never NoMemory.
    Script(ScriptErr),
    /// The input has more bytes than it may: a routine 65,536, any other input 16,777,216.
    TooLong,
    /// Memory was wanting; nothing was written.
    NoMemory,
}

impl ToolStatus {
    /// The exit status of the program.
    pub fn code(&self) -> u8
        ensures { result ≡ exit_status_of self.now }
    {
        match self {
            ToolStatus::Done => 0,
            ToolStatus::FaultFound => 1,
            ToolStatus::BadWords => 2,
            ToolStatus::ReadFault => 3,
            ToolStatus::WriteFault => 4,
            ToolStatus::Script(_) => 5,
            ToolStatus::TooLong => 6,
            ToolStatus::NoMemory => 7,
        }
    }
}
