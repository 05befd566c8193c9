//! The key of a request.
use dsn_mask::Name;
use sms_construct::RequestNumber;

/// A job with a request number of it. Keys stand in the order of the jobs' bytes, and of the numbers of a job.
#[derive(Clone, Copy, PartialEq, Eq, PartialOrd, Ord, Drop)]
pub struct RequestKey {
    pub job: Name,
    pub number: RequestNumber,
}
