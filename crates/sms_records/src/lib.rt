//! Records of the desk's values: how requests, replies and data sets lie in a database as bytes.
#![tactic(auto)]

mod allocs;
mod decks;
mod enums;
mod faults;
mod given_lists;
mod given_texts;
mod inputs;
mod lists;
mod name_parts;
mod numbers;
mod pairs;
mod parts;
mod record_err;
mod recorded;
mod records;
mod replies;
mod requests;
mod sets;
mod texts;
mod traces;
mod views;

pub use record_err::RecordErr;
pub use recorded::{Recorded, no_front, read_whole, record_of};
pub use records::{read_reply, read_request, read_set, reply_record, request_record, set_record};
