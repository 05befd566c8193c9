//! What happens in a run of an ACS routine, statement by statement (docs/manual/acs-language.md, Meaning).
#![tactic(auto)]

mod conditions;
mod event;
mod laws;
mod leaves;
mod log;
mod scope;
mod statements;
mod tracing;

pub use event::{Event, Events};
pub use laws::{masks_cover, never_reached, tells_the_truth};
pub use tracing::{Trace, follow};
