//! Records of fields with names, as comma-separated values or as objects of JSON.
#![tactic(auto)]

mod csv_form;
mod csv_record;
mod field;
mod fields;
mod form;
mod json_form;
mod record;

pub use csv_record::record_text;
pub use field::FieldValue;
pub use fields::Fields;
pub use form::RecordForm;
pub use record::{push_header, push_record};
