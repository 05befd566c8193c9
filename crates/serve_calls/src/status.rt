//! How serving the desk ends.
ghost use Rattle.std.specs.Prelude.{◌≡◌};
ghost use Rattle.serve_calls.specs.ServeStatuses.{serve_status_of};

/// How serving the desk ends; docs/manual/http.md has the cause of each.
#[derive(Clone, Copy, Debug, PartialEq, Eq)]
pub enum ServeStatus {
    /// Each door was served to its end or as often as was asked, and the whole text was written.
    Done,
    /// The words of the command line are none that serve the desk.
    BadWords,
    /// The text couldn't be written; its front may have been.
    WriteFault,
    /// Memory was wanting; nothing was written.
    NoMemory,
    /// A door failed, and the whole text was written.
    AcceptFault,
}

impl ServeStatus {
    /// The exit status of the program.
    pub fn code(&self) -> u8
        ensures { result ≡ serve_status_of self.now }
    {
        match self {
            ServeStatus::Done => 0,
            ServeStatus::BadWords => 2,
            ServeStatus::WriteFault => 4,
            ServeStatus::NoMemory => 7,
            ServeStatus::AcceptFault => 8,
        }
    }
}
