//! The names of the parts of a comparison.

/// The names by which a person is told of two decks and a table of cases, as the paths of their files.
#[derive(Clone, Copy)]
pub struct PartNames<'a> {
    pub before: &'a str,
    pub after: &'a str,
    pub table: &'a str,
}
