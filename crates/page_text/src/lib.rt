//! Pages of the desk as JSON.
#![tactic(auto)]

mod answers_page;
mod check_page;
mod classified_page;
mod coding;
mod deck_page;
mod desk_page;
mod explained_page;
mod gap;
mod group_page;
mod group_row;
mod pieces;
mod refusal;
mod set_extent;
mod set_page;
mod shown_group;
mod shown_groups_page;
mod tracks_page;
mod volume_page;

pub use answers_page::answers_body;
pub use check_page::{barred_body, passed_body};
pub use classified_page::classified_body;
pub use deck_page::{deck_body, no_deck_body};
pub use desk_page::{desk_body, error_body, health_body};
pub use explained_page::explained_body;
pub use gap::Gap;
pub use group_page::groups_body;
pub use group_row::GroupRow;
pub use refusal::push_said_refusal;
pub use set_extent::SetExtent;
pub use set_page::{set_body, sets_body};
pub use shown_group::ShownGroup;
pub use shown_groups_page::shown_groups_body;
pub use tracks_page::tracks_body;
pub use volume_page::volumes_body;
