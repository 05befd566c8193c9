// Values of words that were found.
ghost use Rattle.std.specs.Prelude.{◌≡◌, option_map};
ghost use Rattle.clap.specs.Words.{first_of, found_of, rows_of};
ghost use Rattle.tool_words.specs.Asking.{case_in, format_in, is_set, job_in, kind_in, kind_named, least_in};
ghost use Rattle.tool_words.specs.Asking.{number_in, pick_in};

use crate::format::Format;
use crate::pick::Pick;
use acs_tree::{Kind, number};
use clap::ArgMatches;
use dsn_mask::Name;

// The greatest per cent.
const MOST_PERCENT: u64 = 100;

// The greatest number of a request.
const MOST_NUMBER: u64 = 4_294_967_295;

/// The value of this name.
pub fn value_of<'a>(matches: &ArgMatches<'a>, name: &str) -> Option<&'a str>
    ensures { option_map (λ value. value.now) result ≡ first_of name.now (rows_of (found_of matches.now)) }
{
    matches.get_str(name)
}

/// Whether the flag of this name is set.
pub fn is_set(matches: &ArgMatches<'_>, name: &str) -> bool
    ensures { result ≡ is_set name.now (rows_of (found_of matches.now)) }
{
    match value_of(matches, name) {
        Some(value) => value == "true",
        None => false,
    }
}

/// The kind of routine that the words name.
pub fn kind_in(matches: &ArgMatches<'_>) -> Option<Kind>
    ensures { result ≡ kind_in (rows_of (found_of matches.now)) }
{
    let word = value_of(matches, "kind")?;
    kind_named(word)
}

// The kind that a word names.
fn kind_named(word: &str) -> Option<Kind>
    ensures { result ≡ kind_named word.now }
{
    Kind::named(word.as_bytes())
}

/// The form that the words name, and lines where they name none.
pub fn format_in(matches: &ArgMatches<'_>) -> Option<Format>
    ensures { result ≡ format_in (rows_of (found_of matches.now)) }
{
    let Some(word) = value_of(matches, "format") else {
        return Some(Format::Text);
    };
    if word == "text" {
        return Some(Format::Text);
    }
    if word == "csv" {
        return Some(Format::Csv);
    }
    if word == "json" {
        return Some(Format::Json);
    }
    None
}

/// The least per cent that the words name, and 0 where they name none.
pub fn least_in(matches: &ArgMatches<'_>) -> Option<u8>
    ensures { result ≡ least_in (rows_of (found_of matches.now)) }
{
    let Some(word) = value_of(matches, "fail-under") else {
        return Some(0);
    };
    let least = number(word.as_bytes(), 0, MOST_PERCENT)?;
    Some(least as u8)
}

/// Which allocations the words ask for.
pub fn pick_in(matches: &ArgMatches<'_>) -> Option<Pick>
    ensures { result ≡ pick_in (rows_of (found_of matches.now)) }
{
    let job = job_in(matches)?;
    let number = number_in(matches)?;
    let case = case_in(matches)?;
    Some(Pick { job, number, case })
}

// The job that the words name, if they name one.
fn job_in(matches: &ArgMatches<'_>) -> Option<Option<Name>>
    ensures { result ≡ job_in (rows_of (found_of matches.now)) }
{
    let Some(word) = value_of(matches, "job") else {
        return Some(None);
    };
    match Name::new(word.as_bytes()) {
        Some(name) => Some(Some(name)),
        None => None,
    }
}

// The case that the words name, if they name one; it goes with a table of cases.
fn case_in(matches: &ArgMatches<'_>) -> Option<Option<Name>>
    ensures { result ≡ case_in (rows_of (found_of matches.now)) }
{
    let Some(word) = value_of(matches, "case") else {
        return Some(None);
    };
    if value_of(matches, "cases").is_none() {
        return None;
    }
    match Name::new(word.as_bytes()) {
        Some(name) => Some(Some(name)),
        None => None,
    }
}

/// The number of a request that the words name, if they name one.
pub fn number_in(matches: &ArgMatches<'_>) -> Option<Option<u32>>
    ensures { result ≡ number_in (rows_of (found_of matches.now)) }
{
    let Some(word) = value_of(matches, "number") else {
        return Some(None);
    };
    match number(word.as_bytes(), 1, MOST_NUMBER) {
        Some(number) => Some(Some(number as u32)),
        None => None,
    }
}
