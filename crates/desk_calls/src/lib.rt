//! The top calls of the desk.
#![tactic(auto)]

mod answering;
mod desk;
mod lawful_history;
mod load;
mod run_text;
mod script_run;
mod status;

pub use desk::{desk_main, run_source};
pub use lawful_history::{legal_is_lawful, new_is_lawful};
pub use script_run::run_script;
pub use status::RunStatus;
