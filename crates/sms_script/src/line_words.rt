//! The words of a line.
ghost use Rattle.std.specs.Prelude.{◌≡◌, ◌<◌, ◌∷◌, [], length, map, MatchOption};
ghost use Rattle.desk_common.specs.Bytes.{space_byte};
ghost use Rattle.desk_common.specs.Words.{words_of};

use arrayvec::ArrayVec;
use desk_common::next_word;

/// The most words of a command line: a job, a request number, a verb, a data set and 29 operands.
pub const MOST_WORDS: usize = 33;

/// So few words as most command lines have.
pub const FEW_WORDS: usize = 8;

/// The words of the line, if they are no more than so many.
#[inline(always)]
pub fn line_words<const MOST: usize>(line: &[u8]) -> Option<ArrayVec<&[u8], MOST>>
    ensures { MatchOption result (MOST < length (words_of (space_byte ∷ []) line.entry.now))
        (λ words. map (λ word. word.now) words.items ≡ words_of (space_byte ∷ []) line.entry.now) }
{
    let mut words = ArrayVec::new();
    let mut rest = line;
    while let Some((word, behind)) = next_word(b' ', rest) {
        if words.is_full() {
            return None;
        }
        words.push(word);
        rest = behind;
    }
    Some(words)
}
