// How a script is to be answered, in words.
ghost use Rattle.std.specs.Prelude.{◌≡◌};
ghost use Rattle.clap.specs.Words.{found_of, rows_of};
ghost use Rattle.smsd_words.specs.Asking.{managed_in, running_in};

use crate::manage_words::day_named;
use crate::running::Running;
use crate::values::{is_set, value_of};
use clap::ArgMatches;

/// How the words ask a script to be answered.
pub fn running_in(matches: &ArgMatches<'_>) -> Option<Running>
    ensures { result ≡ running_in (rows_of (found_of matches.now)) }
{
    let managed = managed_in(matches)?;
    Some(Running {
        volumes: is_set(matches, "volumes"),
        strict: is_set(matches, "strict"),
        managed,
    })
}

// The day of space management behind the script, if the words name one.
fn managed_in(matches: &ArgMatches<'_>) -> Option<Option<u32>>
    ensures { result ≡ managed_in (rows_of (found_of matches.now)) }
{
    let Some(word) = value_of(matches, "manage") else {
        return Some(None);
    };
    match day_named(word) {
        Some(day) => Some(Some(day)),
        None => None,
    }
}
