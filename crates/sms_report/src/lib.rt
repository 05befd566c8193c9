//! Reports of the desk.
#![tactic(auto)]

mod csv_text;

pub use csv_text::volumes_csv;
