//! The files of the desk's page.
#![tactic(auto)]

mod markup;
mod script;
mod style;

pub use markup::desk_markup;
pub use script::desk_script;
pub use style::desk_style;
