// What a seat gets.
use crate::held::Held;
use acs_tree::Slate;

/// What a seat gets: a slate, and the active configuration.
#[derive(Drop)]
pub struct Outfit {
    pub slate: Slate,
    pub held: Option<Held>,
}
