// Words that are numbers or sizes (docs/manual/acs-language.md, Kinds that suit).
ghost use Rattle.std.specs.Prelude.{◌≡◌, ◌≤◌, ◌<◌, IfSome, Some, is_some};
ghost use Rattle.std.specs.List.{list_all};
ghost use Rattle.dsn_mask.specs.Name.{is_digit};
ghost use Rattle.acs_tree.specs.Numbers.{greatest, kilobytes_in, number_of, size_of, value_of, within};

use desk_common::are_same;

fn is_digit(byte: u8) -> bool
    ensures { result ≡ is_digit byte }
{
    byte.is_ascii_digit()
}

/// Whether each byte is a digit; so it is of no byte at all.
pub fn are_digits(text: &[u8]) -> bool
    ensures { result ≡ list_all is_digit text.now }
{
    text.iter().all(|byte| is_digit(*byte))
}

/// Whether a word is a number: digits, at least one.
pub fn is_number(word: &[u8]) -> bool
    ensures { result ≡ is_some (number_of word.now) }
{
    word.len() > 0 && are_digits(word)
}

/// The number that a word is, if it is one of that range. Leading zeros do not count.
pub fn number(word: &[u8], least: u64, most: u64) -> Option<u64>
    ensures value { result ≡ within least most (number_of word.now) }
    ensures fits { IfSome result (λ number. number ≤ most) }
{
    if !is_number(word) {
        return None;
    }
    match value_up_to(word, most) {
        Some(value) if least <= value => Some(value),
        _ => None,
    }
}

// The value of digits, if it is at most this.
fn value_up_to(digits: &[u8], most: u64) -> Option<u64>
    ensures value { result ≡ within 0 most (Some (value_of digits.now)) }
    ensures fits { IfSome result (λ value. value ≤ most) }
{
    let mut rest = digits;
    let mut value: u64 = 0;
    'digits: while let Some((first, behind)) = rest.split_first() {
        let digit = first.saturating_sub(b'0') as u64;
        if digit > most {
            return None;
        }
        if value > (most - digit) / 10 {
            return None;
        }
        value = 10 * value + digit;
        rest = behind;
    }
    Some(value)
}

/// Whether a word is a size: a number and a unit.
#[tactic(auto, using(crate::proofs::NumberLemmas::size_is_there))]
pub fn is_size(word: &[u8]) -> bool
    ensures { result ≡ is_some (size_of word.now) }
{
    let (digits, unit) = word.split_at(word.len().saturating_sub(2));
    is_number(digits) && kilobytes_in(unit).is_some()
}

/// The size that a word is, in KB, if it is one and fits.
pub fn size(word: &[u8]) -> Option<u64>
    ensures { result ≡ within 0 greatest (size_of word.now) }
{
    let (digits, unit) = word.split_at(word.len().saturating_sub(2));
    let kilobytes = kilobytes_in(unit)?;
    let count = number(digits, 0, u64::MAX)?;
    count.checked_mul(kilobytes)
}

// How many KB the unit of a size is: KB, MB or GB.
fn kilobytes_in(unit: &[u8]) -> Option<u64>
    ensures value { result ≡ kilobytes_in unit.now }
    ensures positive { IfSome result (λ kilobytes. 0 < kilobytes) }
{
    if are_same(unit, b"KB") {
        Some(1)
    } else if are_same(unit, b"MB") {
        Some(1024)
    } else if are_same(unit, b"GB") {
        Some(1048576)
    } else {
        None
    }
}
