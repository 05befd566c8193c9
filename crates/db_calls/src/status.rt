//! How a run over a stored keeper ends.
ghost use Rattle.std.specs.Prelude.{◌≡◌};
ghost use Rattle.db_calls.specs.DbEnds.{db_status_of};

use desk_calls::RunStatus;
use sms_open::OpenErr;

/// How a run over a stored keeper ends; docs/manual/script.md has the cause of each.
#[derive(Clone, Copy, Debug, PartialEq, Eq)]
pub enum DbStatus {
    /// As a run ends.
    Ran(RunStatus),
    /// The keeper couldn't be made ready, or its tables couldn't be loaded; nothing was run.
    StoreFault,
    /// No desk goes on from the keeper's tables: a row is damaged, or they fail a test. Nothing was run.
    Store(OpenErr),
}

impl DbStatus {
    /// The exit status of the program.
    pub fn code(&self) -> u8
        ensures { result ≡ db_status_of self.now }
    {
        match self {
            DbStatus::Ran(status) => status.code(),
            DbStatus::StoreFault => 10,
            DbStatus::Store(_) => 11,
        }
    }
}
