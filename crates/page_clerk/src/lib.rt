//! A clerk over a core that shows pages of it.
#![tactic(auto)]

mod page_clerk;

pub use page_clerk::PageClerk;
