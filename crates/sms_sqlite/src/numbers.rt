// Numbers as columns hold them.
ghost use Rattle.std.specs.Prelude.{◌≡◌, ◌<◌, ◌≤◌, ◌^◌, MatchOption, pos};
ghost use Rattle.sqlite.specs.declared.types.Value.TheVariants.{Int};
ghost use Rattle.sms_records.specs.Reading.{Gives};
ghost use Rattle.sms_sqlite.specs.Values.{number_in};

use sms_records::RecordErr;

// The number as a column holds it.
pub fn in_column(number: u32) -> i64
    ensures { result ≡ pos number }
{
    i64::from(number)
}

// The number as a column holds it; None exactly where it is too great for one.
pub fn fits_column(number: u64) -> Option<i64>
    ensures { MatchOption result (2 ^ 63 ≤ number) (λ held. (held ≡ pos number) × (number < 2 ^ 63)) }
{
    match i64::try_from(number) {
        Ok(held) => Some(held),
        Err(_) => None,
    }
}

// The number of a column that holds one, where it isn't below 0.
pub fn natural(held: i64) -> Result<u64, RecordErr>
    ensures { Gives (λ number. number) result (number_in (Int held)) }
{
    match u64::try_from(held) {
        Ok(number) => Ok(number),
        Err(_) => Err(RecordErr::Bad),
    }
}
