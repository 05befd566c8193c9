//! How two decks are compared.
use crate::format::Format;

/// What is listed of a comparison, in which form, and with which status it ends.
#[derive(Clone, Copy)]
pub struct Comparison {
    /// Cases that come to the same are left out of the listing.
    pub changed: bool,
    /// A case that differs is told by the exit status.
    pub fail: bool,
    /// In this form the cases are listed.
    pub format: Format,
}
