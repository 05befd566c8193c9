//! The guard of a prefix.
ghost use Rattle.std.specs.Prelude.{◌≡◌, ◌+◌, IfSome};
ghost use Rattle.row_store.specs.Contents.{claimed, following, passing};

/// What stands in the row that every transaction under a prefix compares: which taking of the prefix it is, counted
/// from 1, and a number that rises with each transaction of the desk that took it. 0 and 0 where there is no row.
#[derive(Clone, Copy, Debug, PartialEq, Eq)]
pub struct Guard {
    pub epoch: u64,
    pub number: u64,
}

impl Guard {
    /// The guard behind a change; none where its number is the last.
    pub fn following(&self) -> Option<Guard>
        ensures { IfSome result (λ next. next ≡ following self.now) }
    {
        let number = self.number.checked_add(1)?;
        Some(Guard {
            epoch: self.epoch,
            number,
        })
    }

    /// The guard behind a change that is passed over; none where there are no such numbers.
    pub fn passing(&self) -> Option<Guard>
        ensures { IfSome result (λ next. next ≡ passing self.now) }
    {
        let number = self.number.checked_add(2)?;
        Some(Guard {
            epoch: self.epoch,
            number,
        })
    }

    /// The guard of the desk that takes the prefix; none where the epoch is the last.
    pub fn claimed(&self) -> Option<Guard>
        ensures { IfSome result (λ next. next ≡ claimed self.now) }
    {
        let epoch = self.epoch.checked_add(1)?;
        Some(Guard { epoch, number: 0 })
    }
}
