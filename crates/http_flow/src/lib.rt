//! Conversations whose pieces come and go between those of others, and pages beside the desk's answers.
#![tactic(auto)]

mod answering;
mod conversation;
mod laws;
mod page;
mod page_kind;
mod pages;
mod phase;

pub use conversation::Conversation;
pub use laws::pages_hide_nothing;
pub use page::{Page, PageStatus};
pub use page_kind::PageKind;
pub use pages::Pages;
pub use phase::Phase;
