//! Stores that are closed.
use crate::store::FileKeeper;
use sms_keeper::Stored;

/// A store that is closed behind what is done on it.
pub trait Closing: Stored {
    /// Closes the store. What was committed stands in its log, so nothing is lost where that can't be copied into the
    /// file.
    fn close(self);
}

impl Closing for FileKeeper {
    fn close(self) {
        let _ = self.into_connection().close();
    }
}
