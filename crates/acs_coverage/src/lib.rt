//! What runs of a routine reach of it, and what they don't (docs/manual/tool.md, "Coverage of a script").
#![tactic(auto)]

mod class;
mod coverage_text;
mod laws;
mod point;
mod points;
mod tallies;
mod tally;

pub use coverage_text::{covered_points, is_covered, push_coverage};
pub use laws::events_at_points;
pub use point::{Point, Points};
pub use points::points_of;
pub use tallies::Tallies;
pub use tally::Tally;
