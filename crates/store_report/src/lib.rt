//! Lists of what a store holds: which rows are asked for, and their texts.
#![tactic(auto)]

mod class_parts;
mod class_table;
mod classes_json;
mod columns;
mod csv_record;
mod extent_row;
mod extents_json;
mod format;
mod listed_volume;
mod listing;
mod picking;
mod pieces;
mod query;
mod selection;
mod summing;
mod tables;
mod texts;
mod volume_table;
mod volumes_json;

pub use class_parts::{eattr_bytes, unit_bytes};
pub use extent_row::ExtentRow;
pub use format::Format;
pub use listed_volume::ListedVolume;
pub use listing::Listing;
pub use picking::{pick_extents, pick_sets, pick_volumes};
pub use query::Query;
pub use selection::Selection;
pub use summing::pick_groups;
pub use texts::{classes_text, extents_text, groups_text, sets_text, volumes_text};
