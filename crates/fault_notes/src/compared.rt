//! The parts of the input of a comparison.
ghost use Rattle.std.specs.Prelude.{◌<◌, length};

use crate::deck_part::DeckPart;
use sms_script::{first_line, is_block_end};

/// The decks and the table of an input, as far as they are there.
#[derive(Clone, Copy)]
pub struct Compared<'a> {
    pub old: ComparedDeck<'a>,
    pub new: ComparedDeck<'a>,
    pub table: Rest<'a>,
}

/// A deck of the input, with whether its ./END is there.
#[derive(Clone, Copy)]
pub struct ComparedDeck<'a> {
    pub deck: DeckPart<'a>,
    pub has_end: bool,
}

/// What is left of a text behind so many lines, as the table of a comparison.
#[derive(Clone, Copy)]
pub struct Rest<'a> {
    pub text: &'a [u8],
    pub lines: usize,
}

impl<'a> Compared<'a> {
    /// The parts of this input: a deck behind the first line, one behind the line that follows its ./END, and what is
    /// behind the line that follows the ./END of that.
    pub fn new(text: &'a [u8]) -> Self {
        let (old, rest) = next_deck(Rest { text, lines: 0 });
        let (new, rest) = next_deck(rest);
        Compared {
            old,
            new,
            table: behind_line(rest),
        }
    }
}

// The deck behind the first line, and what is behind its ./END.
fn next_deck(rest: Rest<'_>) -> (ComparedDeck<'_>, Rest<'_>) {
    let start = behind_line(rest);
    let mut left = start;
    while !left.text.is_empty() {
        let (line, _) = first_line(left.text);
        if is_block_end(line) {
            break;
        }
        left = behind_line(left);
    }
    let len = start.text.len().saturating_sub(left.text.len());
    let deck = DeckPart {
        bytes: &start.text[..len],
        lines_before: start.lines,
    };
    let has_end = !left.text.is_empty();
    (ComparedDeck { deck, has_end }, behind_line(left))
}

// What is behind the first line.
fn behind_line(rest: Rest<'_>) -> Rest<'_>
    ensures { 0 < length rest.entry.text.now → length result.text.now < length rest.entry.text.now }
{
    if rest.text.is_empty() {
        return rest;
    }
    let (_, text) = first_line(rest.text);
    Rest {
        text,
        lines: rest.lines.saturating_add(1),
    }
}
