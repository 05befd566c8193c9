//! Reading the words of the command line that ask for a day of space management.
ghost use Rattle.std.specs.Prelude.{◌≡◌, ◌≤◌, map, string_bytes, IfSome};
ghost use Rattle.desk_common.specs.Limits.{last_day};
ghost use Rattle.desk_words.specs.Managing.{day_in, day_of, managed_day_in};

use desk_common::LAST_DAY;
use sms_construct::read_number;

/// The day whose space management the words ask for behind a run, and `None` where they don't ask for one.
pub fn managed_day(words: &[String]) -> Option<u32>
    ensures asked { result ≡ managed_day_in (map string_bytes words.now) }
    ensures limits { IfSome result (λ day. day ≤ last_day) }
{
    match words {
        [word, option, day] if word.as_str() == "run" && option.as_str() == "--manage" => {
            day_in(day.as_bytes())
        }
        _ => None,
    }
}

// The day that a number names.
fn day_in(number: &[u8]) -> Option<u32>
    ensures asked { result ≡ day_in number.now }
    ensures limits { IfSome result (λ day. day ≤ last_day) }
{
    let day = read_number(number)?;
    day_of(day)
}

fn day_of(day: u32) -> Option<u32>
    ensures asked { result ≡ day_of day }
    ensures limits { IfSome result (λ day. day ≤ last_day) }
{
    if day > LAST_DAY {
        return None;
    }
    Some(day)
}
