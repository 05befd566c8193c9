//! Which files the words of the command line name.

/// The paths that words name; where they name none, the input is standard input (docs/manual/tool.md, "Files").
#[derive(Clone, Copy, Debug, PartialEq, Eq)]
pub struct Paths<'a> {
    /// The one file of a subcommand that reads one; with a table of cases it is a deck.
    pub file: Option<&'a str>,
    /// The old deck of a comparison; without a new one it is the file of the whole input.
    pub old: Option<&'a str>,
    /// The new deck of a comparison.
    pub new: Option<&'a str>,
    /// The table of cases. Without one that of a comparison is on standard input, and another subcommand reads a script.
    pub cases: Option<&'a str>,
}
