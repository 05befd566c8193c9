//! Which of the five tables a database has.
ghost use Rattle.std.specs.Prelude.{◌≡◌, ◌↔◌, true};
ghost use Rattle.keeper_statements.specs.Presence.{all_there, has_hidden, has_table, is_hidden, none_there, present_in};

use sqlite_catalog::layout::is_used;
use sqlite_schema::schema::{Schema, Table};

/// Which of the five tables are there.
#[derive(Clone, Copy)]
pub struct Present {
    pub sets: bool,
    pub replies: bool,
    pub decks: bool,
    pub statuses: bool,
    pub floors: bool,
}

impl Present {
    /// Whether the five are there.
    pub fn has_all(&self) -> bool
        ensures { (result ≡ true) ↔ (self.now ≡ all_there) }
    {
        self.sets && self.replies && self.decks && self.statuses && self.floors
    }

    /// Whether none of them is there.
    pub fn has_none(&self) -> bool
        ensures { (result ≡ true) ↔ (self.now ≡ none_there) }
    {
        !(self.sets || self.replies || self.decks || self.statuses || self.floors)
    }
}

// Whether there is a table of this name, in capital or small letters.
fn has_table(tables: &[Table], name: &[u8]) -> bool
    ensures { result ≡ has_table tables.now name.now }
{
    tables.iter().any(|table| table.is_named(name))
}

/// Which of the five are among these tables.
pub fn present_among(tables: &[Table]) -> Present
    ensures { result ≡ present_in tables.now }
{
    Present {
        sets: has_table(tables, b"sets"),
        replies: has_table(tables, b"replies"),
        decks: has_table(tables, b"decks"),
        statuses: has_table(tables, b"statuses"),
        floors: has_table(tables, b"floors"),
    }
}

// Whether something other than a table has this name.
fn is_hidden(schema: &Schema, name: &[u8]) -> bool
    ensures { result ≡ is_hidden schema.now name.now }
{
    is_used(schema, name) && !has_table(schema.tables.as_slice(), name)
}

/// Whether something other than a table has the name of one of the five: a view, an index, or a table that the
/// database sets aside since a trigger, a partial index or an index on an expression is bound to it.
pub fn has_hidden(schema: &Schema) -> bool
    ensures { result ≡ has_hidden schema.now }
{
    is_hidden(schema, b"sets")
        || is_hidden(schema, b"replies")
        || is_hidden(schema, b"decks")
        || is_hidden(schema, b"statuses")
        || is_hidden(schema, b"floors")
}
