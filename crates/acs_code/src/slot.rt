// A variable by its name.
use acs_tree::Ident;

/// A variable: its name, and its index, which is 0 where there is none.
#[derive(Clone, Copy)]
pub struct Slot {
    pub name: Ident,
    pub index: u8,
}
