//! A deck and a table of cases.

/// A deck and a table of cases, each a text of its own.
#[derive(Clone, Copy)]
pub struct CaseParts<'a> {
    pub deck: &'a [u8],
    pub table: &'a [u8],
}

/// The names by which a person is told of them, as the paths of their files.
#[derive(Clone, Copy)]
pub struct CasePartNames<'a> {
    pub deck: &'a str,
    pub table: &'a str,
}
