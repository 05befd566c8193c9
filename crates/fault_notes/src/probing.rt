//! What may stand at a place of a routine: one token of each kind is tried there.
ghost use Rattle.std.specs.Prelude.{◌<◌, ◌^◌, length};

use crate::nearest::listed;
use acs_lex::{LexErr, scan};
use acs_parse::{ParseErr, parse};
use std::alloc::{AllocError, Global};

/// A token that is tried, and how a person is told of it.
#[derive(Clone, Copy)]
struct Sample {
    token: &'static [u8],
    told: &'static str,
}

// Where a word may stand each of the words further down may.
const WORD: Sample = Sample {
    token: b"X",
    told: "a word",
};

static OTHERS: [Sample; 9] = [
    Sample {
        token: b"&X",
        told: "a variable",
    },
    Sample {
        token: b"'X'",
        told: "a text in quotes",
    },
    Sample {
        token: b"=",
        told: "=",
    },
    Sample {
        token: b">",
        told: "another comparison",
    },
    Sample {
        token: b"(",
        told: "(",
    },
    Sample {
        token: b")",
        told: ")",
    },
    Sample {
        token: b",",
        told: "a comma",
    },
    Sample {
        token: b"&&",
        told: "AND",
    },
    Sample {
        token: b"|",
        told: "OR",
    },
];

static WORDS: [Sample; 17] = [
    Sample {
        token: b"1",
        told: "a number",
    },
    Sample {
        token: b"PROC",
        told: "PROC",
    },
    Sample {
        token: b"FILTLIST",
        told: "FILTLIST",
    },
    Sample {
        token: b"INCLUDE",
        told: "INCLUDE",
    },
    Sample {
        token: b"EXCLUDE",
        told: "EXCLUDE",
    },
    Sample {
        token: b"SET",
        told: "SET",
    },
    Sample {
        token: b"IF",
        told: "IF",
    },
    Sample {
        token: b"THEN",
        told: "THEN",
    },
    Sample {
        token: b"ELSE",
        told: "ELSE",
    },
    Sample {
        token: b"SELECT",
        told: "SELECT",
    },
    Sample {
        token: b"WHEN",
        told: "WHEN",
    },
    Sample {
        token: b"OTHERWISE",
        told: "OTHERWISE",
    },
    Sample {
        token: b"DO",
        told: "DO",
    },
    Sample {
        token: b"WRITE",
        told: "WRITE",
    },
    Sample {
        token: b"EXIT",
        told: "EXIT",
    },
    Sample {
        token: b"CODE",
        told: "CODE",
    },
    Sample {
        token: b"END",
        told: "END",
    },
];

/// What may stand behind the front of a routine that has so many tokens, as a list for a person.
pub fn wanted_behind(alloc: Global, front: &[u8], count: usize) -> Result<String, AllocError> {
    let mut list = Vec::new(alloc);
    push_fitting(alloc, front, count, &OTHERS, &mut list)?;
    if fits(alloc, front, count, WORD)? {
        list.push(WORD.told)?;
    } else {
        push_fitting(alloc, front, count, &WORDS, &mut list)?;
    }
    match list.as_slice() {
        [] => String::from_str(alloc, "the end of the routine"),
        list => listed(alloc, list, " or "),
    }
}

// Puts what fits behind the list.
fn push_fitting(
    alloc: Global,
    front: &[u8],
    count: usize,
    samples: &[Sample],
    list: &mut Vec<&'static str>,
) -> Result<(), AllocError> {
    for sample in samples {
        if fits(alloc, front, count, *sample)? {
            list.push(sample.told)?;
        }
    }
    Ok(())
}

// Whether the token may stand behind the front.
fn fits(alloc: Global, front: &[u8], count: usize, sample: Sample) -> Result<bool, AllocError> {
    let mut text = Vec::from_slice(alloc, front)?;
    text.push(b' ')?;
    text.extend_from_slice(sample.token)?;
    if text.len() > u32::MAX as usize {
        return Ok(false);
    }
    reads_past(alloc, &text, count)
}

// Whether the token behind so many may stand there.
fn reads_past(alloc: Global, text: &[u8], count: usize) -> Result<bool, AllocError>
    requires { length text.now < 2 ^ 32 }
{
    let tokens = match scan(alloc, text) {
        Ok(tokens) => tokens,
        Err(LexErr::NoMemory) => return Err(AllocError),
        Err(_) => return Ok(false),
    };
    match parse(alloc, text, &tokens) {
        Ok(_) | Err(ParseErr::Ended) => Ok(true),
        Err(ParseErr::Unexpected(at) | ParseErr::Deep(at)) => Ok(at as usize > count),
        Err(ParseErr::NoMemory) => Err(AllocError),
    }
}
