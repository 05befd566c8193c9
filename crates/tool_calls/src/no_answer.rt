//! Why an input has no answer.
use sms_script::ScriptErr;

/// Why an input has no answer.
#[derive(Clone, Copy, Debug, PartialEq, Eq, Drop)]
pub enum NoAnswer {
    /// It has this fault as a script to be simulated.
    Script(ScriptErr),
    /// Memory was wanting.
    NoMemory,
}
