//! What is asked of the lists.
use crate::format::Format;
use crate::listing::Listing;
use crate::selection::Selection;

/// What is asked of the lists: which one, which of its rows, and in which form.
#[derive(Clone, Copy)]
pub struct Query {
    pub listing: Listing,
    pub selection: Selection,
    pub format: Format,
}
