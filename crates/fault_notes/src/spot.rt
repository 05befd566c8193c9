//! The bytes of a routine's text at which a fault stands.
use acs_lex::{Token, Tokens, scan};
use sms_construct::{Stage, TextFault};
use std::alloc::{AllocError, Global};

/// From the first byte of the spot to behind its last one.
#[derive(Clone, Copy)]
pub struct Spot {
    pub from: usize,
    pub to: usize,
}

/// Where the fault of this text stands: a byte, a token, or the end; or want of memory.
pub fn spot_of(alloc: Global, text: &[u8], fault: &TextFault) -> Result<Spot, AllocError> {
    let at = fault.at as usize;
    match fault.stage {
        Stage::Scanner => Ok(Spot { from: at, to: at }),
        Stage::Parser | Stage::Checks => token_spot(alloc, text, at),
    }
}

// The spot of a token, and behind the last one that of the end. A text with such a fault has tokens.
fn token_spot(alloc: Global, text: &[u8], at: usize) -> Result<Spot, AllocError> {
    let Some(tokens) = tokens_of(alloc, text) else {
        return Err(AllocError);
    };
    Ok(
        match (tokens.as_slice().get(at), tokens.as_slice().last()) {
            (Some(token), _) => bytes_of(token),
            (None, Some(last)) => end_of(last),
            (None, None) => Spot {
                from: text.len(),
                to: text.len(),
            },
        },
    )
}

/// The tokens of a text, if it has any.
pub fn tokens_of(alloc: Global, text: &[u8]) -> Option<Tokens> {
    if text.len() > u32::MAX as usize {
        return None;
    }
    scan(alloc, text).ok()
}

/// The bytes of a token.
pub fn bytes_of(token: &Token) -> Spot {
    Spot {
        from: token.from as usize,
        to: token.to as usize,
    }
}

fn end_of(token: &Token) -> Spot {
    Spot {
        from: token.to as usize,
        to: token.to as usize,
    }
}
