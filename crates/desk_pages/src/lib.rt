//! The pages of a desk.
#![tactic(auto)]

mod checking;
mod grouping;
mod latest;
mod listing;
mod lying;
mod pool;
mod said;
mod showing;
mod shown_desk;
mod trials;

pub use showing::show_page;
pub use shown_desk::ShownDesk;
