// The first fault so far.
ghost use Rattle.std.specs.Prelude.{◌≡◌};
ghost use Rattle.acs_check.specs.Inner.CheckNumber.{number_of};
ghost use Rattle.acs_check.specs.Inner.Walk.{precedes, better, matters, least};
ghost use Rattle.acs_tree.specs.Sound.{fault};
ghost use Rattle.acs_tree.specs.Suits.{token_if};

use crate::check_name::CheckName;
use acs_tree::CheckErr;

fn precedes(one: CheckErr, two: CheckErr) -> bool
    ensures { result ≡ precedes one two }
{
    one.at < two.at || (one.at == two.at && one.number < two.number)
}

fn better(best: Option<CheckErr>, err: CheckErr) -> Option<CheckErr>
    ensures { result ≡ better best err }
{
    match best {
        None => Some(err),
        Some(other) => {
            if precedes(err, other) {
                Some(err)
            } else {
                Some(other)
            }
        }
    }
}

/// Whether a fault there would be the first so far.
pub fn matters(best: Option<CheckErr>, check: CheckName, at: u32) -> bool
    ensures { result ≡ matters best (record { number = number_of check; at = at }) }
{
    match best {
        None => true,
        Some(other) => precedes(
            CheckErr {
                number: check.number(),
                at,
            },
            other,
        ),
    }
}

/// The first fault so far, with this one where the check is broken.
pub fn note(best: Option<CheckErr>, check: CheckName, broken: bool, at: u32) -> Option<CheckErr>
    ensures { result ≡ least best (fault (number_of check) (token_if broken at)) }
{
    if broken {
        better(
            best,
            CheckErr {
                number: check.number(),
                at,
            },
        )
    } else {
        best
    }
}
