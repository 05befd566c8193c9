// One piece of a mask over another: whatever fits the one fits the other.
ghost use Rattle.std.specs.Prelude.{◌≡◌, ◌||◌, false};
ghost use Rattle.dsn_mask.specs.MaskTest.{is_star};
ghost use Rattle.acs_trace.specs.Lint.{covers_byte, piece_covers};
ghost use Rattle.acs_lint.specs.Inner.Fronts.{IsByteFront};

/// What two pieces have at their fronts.
#[derive(Clone, Copy)]
pub enum ByteFront<'a> {
    /// A star, and what is behind it.
    Star(&'a [u8]),
    /// A byte that covers the other, and what is behind each.
    Pair(&'a [u8], &'a [u8]),
    /// Both are at their ends.
    Ends,
    /// What is left isn't covered.
    Stuck,
}

fn covers_byte(symbol: u8, other: u8) -> bool
    ensures { result ≡ covers_byte symbol other }
{
    other != b'*' && (symbol == b'%' || symbol == other)
}

fn front<'a>(piece: &'a [u8], other: &'a [u8]) -> ByteFront<'a>
    ensures { IsByteFront piece.entry.now other.entry.now result }
{
    match piece.split_first() {
        None => {
            if other.is_empty() {
                ByteFront::Ends
            } else {
                ByteFront::Stuck
            }
        }
        Some((symbol, rest)) => {
            if *symbol == b'*' {
                return ByteFront::Star(rest);
            }
            match other.split_first() {
                None => ByteFront::Stuck,
                Some((byte, others)) => {
                    if covers_byte(*symbol, *byte) {
                        ByteFront::Pair(rest, others)
                    } else {
                        ByteFront::Stuck
                    }
                }
            }
        }
    }
}

fn ends_alike(last: u8, byte: u8) -> bool
    ensures { result ≡ (is_star last || covers_byte last byte) }
{
    last == b'*' || covers_byte(last, byte)
}

// Whether the last bytes let the piece cover the other.
fn may_end(piece: &[u8], other: &[u8]) -> bool
    ensures { result ≡ false → piece_covers piece.now other.now ≡ false }
{
    match piece.split_last() {
        None => true,
        Some((last, _)) => match other.split_last() {
            None => true,
            Some((byte, _)) => ends_alike(*last, *byte),
        },
    }
}

/// Whether the piece covers the other.
pub fn piece_covers(piece: &[u8], other: &[u8]) -> bool
    ensures { result ≡ piece_covers piece.now other.now }
{
    may_end(piece, other) && walk(piece, other)
}

// The same, byte by byte. Only the last star is gone back to: with s stars p bytes against q take at most
// (s + 1) * (p + 1) * (q + 1) turns.
#[tactic(auto, using(crate::proofs::ByteTurns::byte_turns))]
fn walk(piece: &[u8], other: &[u8]) -> bool
    ensures { result ≡ piece_covers piece.now other.now }
{
    let mut symbols = piece;
    let mut text = other;
    // Where to go on once nothing fits: behind the last star, one byte later.
    let mut behind_star = piece;
    let mut later: &[u8] = &[];
    'walk: loop {
        match front(symbols, text) {
            ByteFront::Ends => return true,
            ByteFront::Star(rest) => {
                symbols = rest;
                behind_star = rest;
                later = text;
            }
            ByteFront::Pair(rest, others) => {
                symbols = rest;
                text = others;
            }
            ByteFront::Stuck => match later.split_first() {
                None => return false,
                Some((_, others)) => {
                    later = others;
                    text = others;
                    symbols = behind_star;
                }
            },
        }
    }
}
