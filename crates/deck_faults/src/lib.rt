//! Every fault of a deck: of each table and each routine its first (docs/manual/tool.md, "Every fault of a deck").
#![tactic(auto)]

mod assigned;
mod class_tables;
mod constructs;
mod every;
mod forms;
mod group_table;
mod laws;
mod limits;
mod names;
mod places;
mod rows;
mod sources;
mod telling;
mod top_table;
mod values;
mod volume_table;
mod volumes;

pub use every::every_fault;
pub use laws::{first_is_validated, none_where_valid, one_list};
pub use limits::MAX_FAULTS;
