//! Which allocations are explained.
use dsn_mask::Name;

/// Which allocations are explained: those of this job and with this number, and of a table of cases those of this name,
/// where one is asked for.
#[derive(Clone, Copy)]
pub struct Pick {
    pub job: Option<Name>,
    pub number: Option<u32>,
    pub case: Option<Name>,
}
