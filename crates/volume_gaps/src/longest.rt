//! The longest gap of a volume.
ghost use Rattle.std.specs.Prelude.{◌≡◌, ◌≤◌};
ghost use Rattle.std.specs.List.Sorted.{IsNonDecreasingBy};
ghost use Rattle.track_ledger.specs.Gaps.{gaps_within};
ghost use Rattle.volume_gaps.specs.LongestGap.{longest, longest_gap};
ghost use Rattle.volume_gaps.specs.Inner.Walking.{before, behind};

use desk_common::BORDER;
use track_ledger::Piece;

/// How many tracks the longest gap of a volume of so many tracks has, of which data sets hold these pieces
/// (docs/manual/smsd.md, "Lists").
pub fn longest_gap(capacity: u32, pieces: Vec<Piece>) -> u32
    ensures { result ≡ longest_gap capacity pieces.items }
{
    let mut pieces = pieces;
    pieces.sort_unstable_by_key(|piece| piece.start);
    longest_beside(u64::from(capacity), &pieces) as u32
}

// The same of pieces in the order of their first tracks.
fn longest_beside(capacity: u64, pieces: &[Piece]) -> u64
    requires { IsNonDecreasingBy (λ (piece : Piece). piece.start) pieces.now }
    ensures value { result ≡ longest_gap capacity pieces.now }
    ensures range { result ≤ capacity }
{
    let border = u64::from(BORDER);
    let low = longest_within(0, capacity.min(border), pieces);
    low.max(longest_within(border, capacity, pieces))
}

// How many tracks the longest gap has among the tracks from one on, before another.
fn longest_within(from: u64, end: u64, pieces: &[Piece]) -> u64
    requires { IsNonDecreasingBy (λ (piece : Piece). piece.start) pieces.now }
    ensures value { result ≡ longest (gaps_within from end pieces.now) }
    ensures range { result ≤ end }
{
    let mut at = from;
    let mut most = 0;
    let mut rest = pieces;
    while let [piece, others @ ..] = rest {
        most = before(at, end, piece).max(most);
        at = behind(at, piece);
        rest = others;
    }
    end.saturating_sub(at).max(most)
}

// How many tracks lie from one on before the piece, and before another.
fn before(at: u64, end: u64, piece: &Piece) -> u64
    ensures { result ≡ before at end piece.now }
{
    if piece.length == 0 {
        return 0;
    }
    u64::from(piece.start).min(end).saturating_sub(at)
}

// The first track behind the piece that isn't before this one.
fn behind(at: u64, piece: &Piece) -> u64
    ensures { result ≡ behind at piece.now }
{
    if piece.length == 0 {
        return at;
    }
    at.max(piece.end())
}
