// The qualifiers of a mask over those of another: whatever fits the one fits the other.
ghost use Rattle.std.specs.Prelude.{◌≡◌, ◌∷◌, false, option_copied};
ghost use Rattle.dsn_mask.specs.MaskTest.{is_two_stars};
ghost use Rattle.dsn_mask.specs.Qualifiers.{qualifiers_left, qualifiers_of};
ghost use Rattle.acs_trace.specs.Lint.{mask_covers, qualifier_covers};
ghost use Rattle.acs_lint.specs.Inner.Fronts.{IsQualifierFront};

use crate::piece_covering::piece_covers;
use crate::qualifiers::{Cut, first_qualifier};

/// What two masks have at their fronts. What is left of each is None behind its last qualifier.
#[derive(Clone, Copy)]
pub enum QualifierFront<'a> {
    /// The qualifier `**`, and what is behind it.
    Stars(Option<&'a [u8]>),
    /// A piece that covers the other, and what is behind each.
    Pair(Option<&'a [u8]>, Option<&'a [u8]>),
    /// Both are at their ends.
    Ends,
    /// What is left isn't covered.
    Stuck,
}

fn is_two_stars(piece: &[u8]) -> bool
    ensures { result ≡ is_two_stars piece.now }
{
    match piece {
        [first, second] => *first == b'*' && *second == b'*',
        _ => false,
    }
}

fn qualifier_covers(piece: &[u8], other: &[u8]) -> bool
    ensures { result ≡ qualifier_covers piece.now other.now }
{
    !is_two_stars(other) && piece_covers(piece, other)
}

fn against<'a>(piece: Cut<'a>, other: &'a [u8]) -> QualifierFront<'a>
    requires { is_two_stars piece.qualifier.now ≡ false }
    ensures { IsQualifierFront (piece.entry.qualifier.now ∷ qualifiers_left (option_copied piece.entry.rest))
        (qualifiers_of other.entry.now) result }
{
    let first = first_qualifier(other);
    if qualifier_covers(piece.qualifier, first.qualifier) {
        QualifierFront::Pair(piece.rest, first.rest)
    } else {
        QualifierFront::Stuck
    }
}

fn front<'a>(mask: Option<&'a [u8]>, other: Option<&'a [u8]>) -> QualifierFront<'a>
    ensures { IsQualifierFront (qualifiers_left (option_copied mask.entry))
        (qualifiers_left (option_copied other.entry)) result }
{
    match mask {
        None => match other {
            None => QualifierFront::Ends,
            Some(_) => QualifierFront::Stuck,
        },
        Some(text) => {
            let piece = first_qualifier(text);
            if is_two_stars(piece.qualifier) {
                return QualifierFront::Stars(piece.rest);
            }
            match other {
                None => QualifierFront::Stuck,
                Some(bytes) => against(piece, bytes),
            }
        }
    }
}

/// Whether the mask covers the other, qualifier by qualifier. Only the last `**` is gone back to: with s of them m
/// qualifiers against n take at most (s + 1) * (m + 1) * (n + 1) turns, each one piece against one qualifier or none.
#[tactic(auto, using(crate::proofs::QualifierTurns::qualifier_steps))]
pub fn mask_covers(mask: &[u8], other: &[u8]) -> bool
    ensures { result ≡ mask_covers mask.now other.now }
{
    let mut pieces = Some(mask);
    let mut qualifiers = Some(other);
    // Where to go on once nothing fits: behind the last `**`, one qualifier later.
    let mut behind_stars = Some(mask);
    let mut later: Option<&[u8]> = None;
    'walk: loop {
        match front(pieces, qualifiers) {
            QualifierFront::Ends => return true,
            QualifierFront::Stars(rest) => {
                pieces = rest;
                behind_stars = rest;
                later = qualifiers;
            }
            QualifierFront::Pair(rest, others) => {
                pieces = rest;
                qualifiers = others;
            }
            QualifierFront::Stuck => match later {
                None => return false,
                Some(bytes) => {
                    let first = first_qualifier(bytes);
                    later = first.rest;
                    qualifiers = first.rest;
                    pieces = behind_stars;
                }
            },
        }
    }
}
