//! The running state of the desk: what a fresh request is answered, and what it changes.
#![tactic(auto)]

mod activation;
mod allocation;
mod applying;
mod blank_trace;
mod catalog;
mod data_sets;
mod deciding;
mod decision;
mod deed;
mod extension;
mod extents;
mod grant;
mod operator;
mod running;
mod staying;
mod using;
mod wish;
mod work;

pub use blank_trace::BlankTrace;
pub use catalog::Catalog;
pub use data_sets::has_unused;
pub use decision::Decision;
pub use deed::Deed;
pub use running::Running;
pub use staying::work_stays;
pub use work::Work;
