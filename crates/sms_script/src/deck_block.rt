//! Deck blocks.
ghost use Rattle.std.specs.Prelude.{◌≡◌, ◌≤◌, ◌<◌, ◌+◌, ◌^◌, ℕ, length, true, false, None, Some, IfSome, MatchOption};
ghost use Rattle.sms_script.specs.Lines.{lines_of};
ghost use Rattle.sms_script.specs.Script.{deck_of, script_from};

use crate::lines::{first_line, is_block_end};

/// A deck, what is behind its block, and the number of lines of the block.
#[derive(Clone, Copy)]
pub struct DeckBlock<'a> {
    pub deck: &'a [u8],
    pub rest: &'a [u8],
    pub lines: u32,
}

/// The deck block at the front of the text, if it ends.
pub fn deck_block(text: &[u8]) -> Option<DeckBlock<'_>>
    requires { length text.now < 2 ^ 32 }
    ensures deck { MatchOption result (deck_of (lines_of text.entry.now) ≡ None)
        (λ block. deck_of (lines_of text.entry.now) ≡ Some block.deck.now) }
    ensures rest { IfSome result (λ block. (count line : ℕ) →
        script_from true count line (lines_of text.entry.now) ≡ script_from false count (line + block.lines)
        (lines_of block.rest.now)) }
    ensures shorter { IfSome result (λ block. length block.rest.now ≤ length text.entry.now) }
    ensures fits { IfSome result (λ block. block.lines + length block.rest.now ≤ length text.entry.now) }
{
    let mut rest = text;
    let mut lines: u32 = 0;
    while !rest.is_empty() {
        let (line, behind) = first_line(rest);
        lines += 1;
        if is_block_end(line) {
            let deck = &text[..text.len() - rest.len()];
            return Some(DeckBlock {
                deck,
                rest: behind,
                lines,
            });
        }
        rest = behind;
    }
    None
}
