// A day of space management, in words.
ghost use Rattle.std.specs.Prelude.{◌≡◌};
ghost use Rattle.clap.specs.Words.{found_of, rows_of};
ghost use Rattle.smsd_words.specs.Asking.{day_in, day_named, day_of};

use crate::values::value_of;
use clap::ArgMatches;
use desk_common::LAST_DAY;
use sms_construct::read_number;

/// The day that the words name.
pub fn day_in(matches: &ArgMatches<'_>) -> Option<u32>
    ensures { result ≡ day_in (rows_of (found_of matches.now)) }
{
    match value_of(matches, "day") {
        Some(word) => day_named(word),
        None => None,
    }
}

/// The day that a word names.
pub fn day_named(word: &str) -> Option<u32>
    ensures { result ≡ day_named word.now }
{
    let day = read_number(word.as_bytes())?;
    day_of(day)
}

fn day_of(day: u32) -> Option<u32>
    ensures { result ≡ day_of day }
{
    if day > LAST_DAY {
        return None;
    }
    Some(day)
}
