//! What a head asks beside the desk's messages: from which site it is asked, and for which page.
#![tactic(auto)]

mod look;
mod site;

pub use look::{Look, read_look};
pub use site::Site;
