//! The tokens of a text at their places.
ghost use Rattle.std.specs.Prelude.{◌≡◌, ◌<◌, ◌≤◌, ◌^◌, Some, length, map, IfErr, IfOk};
ghost use Rattle.acs_lex.specs.LexFault.{IsFirstLexFault};
ghost use Rattle.acs_lex.specs.Tokens.{InOrder};
ghost use Rattle.acs_places.specs.Places.{AreSpots, place_in, spot_of};
ghost use Rattle.desk_common.specs.Exact.{MayRefuse};

use crate::place::Place;
use crate::spot::{Spot, Spots};
use acs_lex::{LexErr, Token, scan};
use desk_common::Items;
use std::alloc::{AllocError, Global};

/// The tokens of a text at their places, or the fault that the scanner meets first.
pub fn spots_of(alloc: Global, text: &[u8]) -> Result<Spots, LexErr>
    requires { length text.now < 2 ^ 32 }
    ensures ok { IfOk result (AreSpots text.now) }
    ensures err { IfErr result (MayRefuse (IsFirstLexFault text.now) (Some LexErr.NoMemory)) }
{
    match scan(alloc, text) {
        Ok(tokens) => placed(alloc, text, tokens.as_slice()).map_err(|_| LexErr::NoMemory),
        Err(err) => Err(err),
    }
}

fn placed(alloc: Global, text: &[u8], tokens: &[Token]) -> Result<Spots, AllocError>
    requires short { length text.now < 2 ^ 32 }
    requires order { InOrder 0 (length text.now) tokens.now }
    ensures { IfOk result (λ spots. spots ≡ map (spot_of text.now) tokens.now) }
{
    let mut spots = Items::new(alloc);
    let mut place = Place::first();
    let mut at = 0;
    for token in tokens {
        let from = token.from as usize;
        place = further(text, place, at, from);
        at = from;
        spots.push(Spot {
            place,
            token: *token,
        })?;
    }
    Ok(spots)
}

// The place further on in a text.
fn further(text: &[u8], place: Place, from: usize, to: usize) -> Place
    requires short { length text.now < 2 ^ 32 }
    requires order { (from ≤ to) × (to ≤ length text.now) }
    requires place { place ≡ place_in text.now from }
    ensures { result ≡ place_in text.now to }
{
    place.behind(&text[from..to])
}
