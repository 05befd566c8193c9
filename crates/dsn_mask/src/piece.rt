//! One piece of a mask against bytes.
ghost use Rattle.std.specs.Prelude.{◌≡◌};
ghost use Rattle.dsn_mask.specs.MaskTest.{piece_fits};
ghost use Rattle.dsn_mask.specs.Inner.Fronts.{IsByteFront};

/// What a piece and bytes have at their fronts.
#[derive(Clone, Copy)]
pub enum ByteFront<'a> {
    /// A star, and what is behind it.
    Star(&'a [u8]),
    /// A byte that fits, and what is behind each.
    Pair(&'a [u8], &'a [u8]),
    /// Both are at their ends.
    Ends,
    /// What is left does not fit.
    Stuck,
}

fn front<'a>(piece: &'a [u8], bytes: &'a [u8]) -> ByteFront<'a>
    ensures { IsByteFront piece.entry.now bytes.entry.now result }
{
    match piece.split_first() {
        None => {
            if bytes.is_empty() {
                ByteFront::Ends
            } else {
                ByteFront::Stuck
            }
        }
        Some((symbol, rest)) => {
            if *symbol == b'*' {
                return ByteFront::Star(rest);
            }
            match bytes.split_first() {
                None => ByteFront::Stuck,
                Some((byte, others)) => {
                    if *symbol == b'%' || *symbol == *byte {
                        ByteFront::Pair(rest, others)
                    } else {
                        ByteFront::Stuck
                    }
                }
            }
        }
    }
}

/// Whether the piece fits the bytes. Only the last star is gone back to: with s stars p bytes against q
/// take at most (s + 1) * (p + 1) * (q + 1) turns.
#[tactic(auto, using(crate::proofs::ByteTurns::byte_turns))]
pub fn piece_fits(piece: &[u8], bytes: &[u8]) -> bool
    ensures { result ≡ piece_fits piece.now bytes.now }
{
    let mut symbols = piece;
    let mut text = bytes;
    // Where to go on once nothing fits: behind the last star, one byte later.
    let mut behind_star = piece;
    let mut later: &[u8] = &[];
    'walk: loop {
        match front(symbols, text) {
            ByteFront::Ends => return true,
            ByteFront::Star(rest) => {
                symbols = rest;
                behind_star = rest;
                later = text;
            }
            ByteFront::Pair(rest, others) => {
                symbols = rest;
                text = others;
            }
            ByteFront::Stuck => match later.split_first() {
                None => return false,
                Some((_, others)) => {
                    later = others;
                    text = others;
                    symbols = behind_star;
                }
            },
        }
    }
}
