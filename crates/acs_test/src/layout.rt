//! The parts of an input.
ghost use Rattle.std.specs.Prelude.{◌≡◌, ◌≤◌, ◌<◌, ◌+◌, ◌^◌, length, Ok, Err, IfOk, MatchResult};
ghost use Rattle.sms_script.specs.Lines.{lines_of};
ghost use Rattle.acs_test.specs.Layout.{behind_word, block_of, parts_of, parts_seen};
ghost use Rattle.acs_test.specs.Inner.Parts.{block_seen, numbered_in};

use sms_script::{first_line, is_block_end, line_text};

/// The decks and the table of an input, with their line ends.
#[derive(Clone, Copy)]
pub struct InputParts<'a> {
    pub before: &'a [u8],
    pub after: &'a [u8],
    pub table: &'a [u8],
}

/// What is left of an input, from the line with this number on.
#[derive(Clone, Copy)]
pub struct Left<'a> {
    pub line: u32,
    pub text: &'a [u8],
}

/// A deck, and what is behind the `./END` of its block.
#[derive(Clone, Copy)]
pub struct DeckPart<'a> {
    pub deck: &'a [u8],
    pub behind: Left<'a>,
}

/// The parts of an input, or the number of the first line that isn't as the layout asks (docs/manual/tool.md,
/// "Comparing two decks"). One walk over the text.
pub fn parts_of(bytes: &[u8]) -> Result<InputParts<'_>, u32>
    requires { length bytes.now < 2 ^ 32 }
    ensures parts { MatchResult result (λ parts. parts_of bytes.entry.now ≡ Ok (parts_seen parts))
        (λ line. parts_of bytes.entry.now ≡ Err line) }
    ensures short { IfOk result (λ parts. length parts.table.now + 3 ≤ length bytes.entry.now) }
{
    let first = behind_word(
        b"OLD",
        Left {
            line: 1,
            text: bytes,
        },
    )?;
    let before = deck_part(first)?;
    let second = behind_word(b"NEW", before.behind)?;
    let after = deck_part(second)?;
    let third = behind_word(b"CASES", after.behind)?;
    Ok(InputParts {
        before: before.deck,
        after: after.deck,
        table: third.text,
    })
}

// What is behind the first line, if that is this word; else its number.
fn behind_word<'a>(word: &[u8], left: Left<'a>) -> Result<Left<'a>, u32>
    requires { left.line + 1 < 2 ^ 32 }
    ensures behind { MatchResult result
        (λ behind. behind_word word.now left.entry.line (lines_of left.entry.text.now) ≡ Ok (numbered_in behind))
        (λ line. behind_word word.now left.entry.line (lines_of left.entry.text.now) ≡ Err line) }
    ensures line { IfOk result (λ behind. behind.line ≡ left.entry.line + 1) }
    ensures shorter { IfOk result (λ behind. length behind.text.now + length word.now ≤ length left.entry.text.now) }
{
    if left.text.is_empty() {
        return Err(left.line);
    }
    let (first, text) = first_line(left.text);
    if line_text(first) != word {
        return Err(left.line);
    }
    Ok(Left {
        line: left.line + 1,
        text,
    })
}

// The deck at the front of the lines, and what is behind its ./END; without one, the number behind the last line.
fn deck_part(left: Left<'_>) -> Result<DeckPart<'_>, u32>
    requires { left.line + length left.text.now < 2 ^ 32 }
    ensures block { MatchResult result
        (λ part. block_of left.entry.line (lines_of left.entry.text.now) ≡ Ok (block_seen part))
        (λ line. block_of left.entry.line (lines_of left.entry.text.now) ≡ Err line) }
    ensures shorter { IfOk result (λ part. part.behind.line + length part.behind.text.now
        ≤ left.entry.line + length left.entry.text.now) }
    ensures fits { IfOk result (λ part. length part.behind.text.now ≤ length left.entry.text.now) }
{
    let mut rest = left.text;
    let mut line = left.line;
    while !rest.is_empty() {
        let (first, behind) = first_line(rest);
        line += 1;
        if is_block_end(first) {
            let deck = &left.text[..left.text.len() - rest.len()];
            return Ok(DeckPart {
                deck,
                behind: Left { line, text: behind },
            });
        }
        rest = behind;
    }
    Err(line)
}
