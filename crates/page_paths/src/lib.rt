//! The paths of pages.
#![tactic(auto)]

mod page_path;
mod reading;
mod trial;

pub use page_path::PagePath;
pub use reading::read_page_path;
pub use trial::Trial;
