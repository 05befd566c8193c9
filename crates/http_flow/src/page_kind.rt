//! Kinds of pages.

/// Of what kind the body of a page is (docs/manual/smsd.md, "Pages").
#[derive(Clone, Copy, Debug, PartialEq, Eq)]
pub enum PageKind {
    /// JSON.
    Json,
    /// HTML, which a browser shows.
    Markup,
    /// The style sheet of the markup.
    Style,
    /// The script of the markup.
    Script,
}
