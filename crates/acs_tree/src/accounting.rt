// The accounting of a job and of its step.
ghost use Rattle.std.specs.Prelude.{◌≡◌, ◌↔◌, [], IsTrue};

use crate::account::Account;

/// The accounting of a job and of its step: the variables of these names, whose indexes count the fields.
#[derive(Clone, Copy, PartialEq, Eq)]
pub struct Accounting {
    pub acct_job: Account,
    pub acct_step: Account,
}

impl Accounting {
    pub(crate) fn new() -> Self
        ensures { result ≡ record { acct_job = []; acct_step = [] } }
    {
        Accounting {
            acct_job: Account::new(),
            acct_step: Account::new(),
        }
    }

    pub(crate) fn equals(&self, other: &Self) -> bool
        ensures { IsTrue result ↔ (self.now ≡ other.now) }
    {
        self.acct_job.equals(&other.acct_job) && self.acct_step.equals(&other.acct_step)
    }
}
