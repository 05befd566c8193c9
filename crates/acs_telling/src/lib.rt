//! What happens in a run of a routine, as text (docs/manual/tool.md, "Explaining a script").
#![tactic(auto)]

mod event_text;
mod source;
mod words;

pub use event_text::{push_begun, push_comparison, push_events};
pub use source::Source;
pub use words::push_front;
