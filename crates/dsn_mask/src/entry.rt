//! Entries of filter lists.
ghost use Rattle.std.specs.Prelude.{◌≡◌, ◌↔◌, IsTrue};
ghost use Rattle.dsn_mask.specs.Quoted.{fits_as_mask, is_quoted};

use crate::{Lit, Mask, Short, Simple};

/// An entry of a filter list (docs/manual/acs-language.md, "Filter lists").
#[derive(Clone, Copy)]
pub enum Entry {
    /// A literal, which fits its equal text.
    Quoted(Lit),
    /// A mask of data set names.
    Dots(Mask),
    /// A simple mask.
    Plain(Simple),
}

impl Entry {
    /// The same kind of entry with the same bytes.
    pub fn equals(&self, other: &Entry) -> bool
        ensures { IsTrue result ↔ (self.now ≡ other.now) }
    {
        match (self, other) {
            (Entry::Quoted(literal), Entry::Quoted(other)) => literal == other,
            (Entry::Dots(mask), Entry::Dots(other)) => mask == other,
            (Entry::Plain(simple), Entry::Plain(other)) => simple == other,
            _ => false,
        }
    }

    pub(crate) fn is_quoted(&self) -> bool
        ensures { result ≡ is_quoted self.now }
    {
        matches!(self, Entry::Quoted(_))
    }

    /// Whether it is a mask that the value fits.
    pub(crate) fn fits_as_mask(&self, value: &Short) -> bool
        ensures { result ≡ fits_as_mask value.now self.now }
    {
        match self {
            Entry::Quoted(_) => false,
            Entry::Dots(mask) => mask.matches(value),
            Entry::Plain(simple) => simple.matches(value),
        }
    }
}
