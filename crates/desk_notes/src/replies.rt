//! Replies of which a person is told more, in the text of the answers.
ghost use Rattle.std.specs.Prelude.{◌≤◌, length};

use crate::reply_counts::ReplyCounts;
use memchr::memchr;
use std::alloc::Global;

// So many words stand before the reply in the first line of an answer, and in a line of space management.
const WORDS_BEFORE: u8 = 5;

const WORDS_BEFORE_MANAGED: u8 = 3;

/// What the next byte of the text is.
#[derive(Clone, Copy)]
enum Next {
    /// The first of a line.
    Front,
    /// One before the reply, to which so many blanks are left.
    Before(u8),
    /// The letter of a reply's code.
    Letter,
    /// The first digit of the code with this letter.
    Tens(u8),
    /// Its second digit, behind this one.
    Ones(u8, u8),
    /// Any other.
    Other,
}

/// Which replies stand in a text that comes in pieces, as far as it came.
#[derive(Clone, Copy)]
pub struct RepliesSeen {
    next: Next,
    counts: ReplyCounts,
}

impl RepliesSeen {
    /// Before the text.
    pub fn none() -> Self {
        RepliesSeen {
            next: Next::Front,
            counts: ReplyCounts::none(),
        }
    }

    /// Behind this piece too.
    pub fn behind(self, piece: &[u8]) -> Self {
        let mut seen = self;
        let mut rest = piece;
        while let [byte, others @ ..] = rest {
            seen.note_byte(*byte);
            rest = from_next(seen.next, others);
        }
        seen
    }

    // One byte more.
    fn note_byte(&mut self, byte: u8) {
        if let Next::Ones(letter, tens) = self.next {
            self.counts.add(letter, tens, byte);
        }
        self.next = next_behind(self.next, byte);
    }

    /// Whether something that was asked for was refused or couldn't be done: an R, an F or an M.
    pub fn has_undone(self) -> bool {
        self.counts.has_undone()
    }

    /// Whether a deck was refused.
    pub fn has_refused_deck(self) -> bool {
        self.counts.has_refused_deck()
    }

    /// Notes what they mean that a person should know.
    pub fn note(self, note: &mut String) {
        self.counts.note(note);
    }

    /// Notes how many answers refused something, by their codes.
    pub fn note_refused(self, alloc: Global, note: &mut String) {
        self.counts.note_refused(alloc, note);
    }

    /// Notes how many answers there were, by their codes.
    pub fn note_all(self, alloc: Global, note: &mut String) {
        self.counts.note_all(alloc, note);
    }
}

fn next_behind(next: Next, byte: u8) -> Next {
    match (next, byte) {
        (_, b'\n') => Next::Front,
        (Next::Front, b'0'..=b'9') => Next::Before(WORDS_BEFORE),
        (Next::Front, b'M') => Next::Before(WORDS_BEFORE_MANAGED),
        (Next::Before(1), b' ') => Next::Letter,
        (Next::Before(left), b' ') => Next::Before(left.saturating_sub(1)),
        (Next::Before(_), _) => next,
        (Next::Letter, _) => Next::Tens(byte),
        (Next::Tens(letter), b'0'..=b'9') => Next::Ones(letter, byte),
        _ => Next::Other,
    }
}

// The text from the next byte on that changes what comes next: most bytes are passed so.
fn from_next(next: Next, text: &[u8]) -> &[u8]
    ensures { length result.now ≤ length text.entry.now }
{
    let end = match next {
        Next::Before(_) => text.iter().position(|byte| *byte == b' ' || *byte == b'\n'),
        Next::Other => memchr(b'\n', text),
        Next::Front | Next::Letter | Next::Tens(_) | Next::Ones(..) => Some(0),
    };
    match end {
        Some(at) => text.get(at..).unwrap_or(&[]),
        None => &[],
    }
}
