//! What lint finds in a deck, as records for other tools.
#![tactic(auto)]

mod finding_record;
mod records;

pub use records::finding_records;
