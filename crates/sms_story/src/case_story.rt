//! The story of a classification.
use crate::run::Runs;
use sms_classes::Classified;
use sms_construct::Trace;

/// The story of a classification: the routines that ran, what it comes to, and what they wrote.
#[derive(Drop)]
pub struct CaseStory {
    pub runs: Runs,
    pub classified: Classified,
    pub trace: Trace,
}
