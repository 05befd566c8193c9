//! What the routines of a deck do with allocations, and what these reach of them, as records for other tools.
#![tactic(auto)]

mod asked;
mod coverage;
mod explanation;
mod happening;
mod laws;
mod point_fields;
mod told;
mod told_events;
mod told_fields;

pub use coverage::coverage_records;
pub use explanation::explain_records;
pub use laws::headers_name_fields;
