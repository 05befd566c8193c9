//! What a classification comes to.
use acs_tree::Values;
use sms_construct::Stop;

/// What a classification comes to: the classes and the storage groups as they stood at its end, and how it
/// ends. The lines that were written are on the slate.
#[derive(Clone, Copy)]
pub struct Classified {
    pub values: Values,
    pub stop: Stop,
}
