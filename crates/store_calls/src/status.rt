//! How a call over a store ends.
ghost use Rattle.std.specs.Prelude.{◌≡◌};
ghost use Rattle.store_calls.specs.Statuses.{store_status_of};

use desk_calls::RunStatus;
use sms_open::OpenErr;

/// How a call over a store ends; docs/manual/smsd.md has the cause of each.
#[derive(Clone, Copy, Debug, PartialEq, Eq)]
pub enum StoreStatus {
    /// The store was opened; as a run ends.
    Ran(RunStatus),
    /// No desk goes on from the store; nothing was read or written.
    Unopened(OpenErr),
}

impl StoreStatus {
    /// The exit status of the program.
    pub fn code(&self) -> u8
        ensures { result ≡ store_status_of self.now }
    {
        match self {
            StoreStatus::Ran(status) => status.code(),
            StoreStatus::Unopened(OpenErr::NoMemory) => 7,
            StoreStatus::Unopened(OpenErr::Failed) => 10,
            StoreStatus::Unopened(OpenErr::Damaged(_, _)) => 11,
            StoreStatus::Unopened(OpenErr::Unsound(_)) => 11,
        }
    }
}
