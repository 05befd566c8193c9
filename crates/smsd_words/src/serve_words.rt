// How a store is served, in words.
ghost use Rattle.std.specs.Prelude.{◌≡◌, ◌≤◌, IfSome};
ghost use Rattle.clap.specs.Words.{first_of, found_of, rows_of};
ghost use Rattle.smsd_words.specs.Asking.{number_or, serving_in};

use crate::serving::Serving;
use crate::values::{is_set, value_of};
use clap::ArgMatches;
use sms_construct::read_number;

// The greatest port, and the one that is usual.
const MOST_PORT: u32 = 65_535;

const USUAL_PORT: u32 = 8_080;

// The most connections, and how many are usual.
const MOST_CONNECTIONS: u32 = 10_000;

const USUAL_CONNECTIONS: u32 = 1_000;

// For how many seconds nothing may happen at a connection, at most and as is usual.
const MOST_IDLE: u32 = 86_400;

const USUAL_IDLE: u32 = 60;

/// How the words ask the store to be served.
pub fn serving_in(matches: &ArgMatches<'_>) -> Option<Serving>
    ensures { result ≡ serving_in (rows_of (found_of matches.now)) }
{
    let port = number_or(matches, "port", MOST_PORT, USUAL_PORT)?;
    let connections = number_or(matches, "connections", MOST_CONNECTIONS, USUAL_CONNECTIONS)?;
    let idle = number_or(matches, "idle", MOST_IDLE, USUAL_IDLE)?;
    Some(Serving {
        port: port as u16,
        connections: connections as u16,
        idle,
        log: is_set(matches, "log"),
    })
}

// The number of this name, from 1 to the greatest; the usual one where the words have none.
fn number_or(matches: &ArgMatches<'_>, name: &str, most: u32, usual: u32) -> Option<u32>
    requires { usual ≤ most }
    ensures number { result ≡ number_or most usual (first_of name.now (rows_of (found_of matches.now))) }
    ensures range { IfSome result (λ number. number ≤ most) }
{
    let Some(word) = value_of(matches, name) else {
        return Some(usual);
    };
    let number = read_number(word.as_bytes())?;
    if number < 1 || number > most {
        return None;
    }
    Some(number)
}
