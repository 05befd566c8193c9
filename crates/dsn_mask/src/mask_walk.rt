//! The qualifiers of a mask against those of a value.
ghost use Rattle.std.specs.Prelude.{◌≡◌, ◌∷◌, false, option_copied};
ghost use Rattle.dsn_mask.specs.Qualifiers.{qualifiers_of, qualifiers_left};
ghost use Rattle.dsn_mask.specs.MaskTest.{is_two_stars, mask_fits};
ghost use Rattle.dsn_mask.specs.Inner.Fronts.{IsQualifierFront};

use crate::piece::piece_fits;
use crate::qualifiers::{Cut, first_qualifier};

/// What a mask and a value have at their fronts. What is left of each is None behind its last qualifier.
#[derive(Clone, Copy)]
pub enum QualifierFront<'a> {
    /// The qualifier `**`, and what is behind it.
    Stars(Option<&'a [u8]>),
    /// A piece that fits a qualifier, and what is behind each.
    Pair(Option<&'a [u8]>, Option<&'a [u8]>),
    /// Both are at their ends.
    Ends,
    /// What is left does not fit.
    Stuck,
}

fn is_two_stars(piece: &[u8]) -> bool
    ensures { result ≡ is_two_stars piece.now }
{
    match piece {
        [first, second] => *first == b'*' && *second == b'*',
        _ => false,
    }
}

fn against<'a>(piece: Cut<'a>, value: &'a [u8]) -> QualifierFront<'a>
    requires { is_two_stars piece.qualifier.now ≡ false }
    ensures { IsQualifierFront (piece.entry.qualifier.now ∷ qualifiers_left (option_copied piece.entry.rest))
        (qualifiers_of value.entry.now) result }
{
    let first = first_qualifier(value);
    if piece_fits(piece.qualifier, first.qualifier) {
        QualifierFront::Pair(piece.rest, first.rest)
    } else {
        QualifierFront::Stuck
    }
}

fn front<'a>(mask: Option<&'a [u8]>, value: Option<&'a [u8]>) -> QualifierFront<'a>
    ensures { IsQualifierFront (qualifiers_left (option_copied mask.entry))
        (qualifiers_left (option_copied value.entry)) result }
{
    match mask {
        None => match value {
            None => QualifierFront::Ends,
            Some(_) => QualifierFront::Stuck,
        },
        Some(text) => {
            let piece = first_qualifier(text);
            if is_two_stars(piece.qualifier) {
                return QualifierFront::Stars(piece.rest);
            }
            match value {
                None => QualifierFront::Stuck,
                Some(bytes) => against(piece, bytes),
            }
        }
    }
}

// Whether the first bytes let the mask fit: one that begins with another byte than the value never does.
fn may_begin(mask: &[u8], value: &[u8]) -> bool
    ensures { result ≡ false → mask_fits mask.now value.now ≡ false }
{
    match mask.split_first() {
        None => true,
        Some((symbol, _)) => match value.split_first() {
            None => true,
            Some((byte, _)) => *symbol == *byte || *symbol == b'*' || *symbol == b'%',
        },
    }
}

/// Whether the mask fits the value.
pub fn mask_fits(mask: &[u8], value: &[u8]) -> bool
    ensures { result ≡ mask_fits mask.now value.now }
{
    may_begin(mask, value) && walk(mask, value)
}

// The same, qualifier by qualifier. Only the last `**` is gone back to.
#[tactic(auto, using(crate::proofs::QualifierTurns::qualifier_steps))]
fn walk(mask: &[u8], value: &[u8]) -> bool
    ensures { result ≡ mask_fits mask.now value.now }
{
    let mut pieces = Some(mask);
    let mut qualifiers = Some(value);
    // Where to go on once nothing fits: behind the last `**`, one qualifier later.
    let mut behind_stars = Some(mask);
    let mut later: Option<&[u8]> = None;
    'walk: loop {
        match front(pieces, qualifiers) {
            QualifierFront::Ends => return true,
            QualifierFront::Stars(rest) => {
                pieces = rest;
                behind_stars = rest;
                later = qualifiers;
            }
            QualifierFront::Pair(rest, others) => {
                pieces = rest;
                qualifiers = others;
            }
            QualifierFront::Stuck => match later {
                None => return false,
                Some(bytes) => {
                    let first = first_qualifier(bytes);
                    later = first.rest;
                    qualifiers = first.rest;
                    pieces = behind_stars;
                }
            },
        }
    }
}
