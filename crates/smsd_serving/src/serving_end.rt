//! Why a desk is served no further.

use serve_poll::LoopEnd;
use sms_open::OpenErr;

/// Why a desk is served no further.
#[derive(Clone, Copy, Debug)]
pub enum ServingEnd {
    /// No further event is awaited.
    Loop(LoopEnd),
    /// Its journal had no room for one more question, and no desk goes on from the tables that it left.
    Unopened(OpenErr),
}
