//! What recorded rows come to.
use desk_state::Running;
use sms_keeper::RequestLog;

/// The running state of a desk, and the log of its kept replies.
#[derive(Drop)]
pub struct Restored {
    pub running: Running,
    pub log: RequestLog,
}
