// Words that are numbers or sizes (docs/manual/acs-language.md, Kinds that suit).
ghost use Rattle.std.specs.Prelude.{◌≡◌};
ghost use Rattle.acs_tree.specs.Numbers.{is_between, is_past_greatest, number_of, size_of};

use acs_tree::{is_number, is_size, number, size};

pub fn is_between(least: u64, most: u64, word: &[u8]) -> bool
    ensures { result ≡ is_between least most word.now }
{
    number(word, least, most).is_some()
}

/// Whether it is a number that is too great to be counted with.
#[tactic(auto, using(crate::proofs::NumberLemmas::past_greatest))]
pub fn is_great_number(word: &[u8]) -> bool
    ensures { result ≡ is_past_greatest (number_of word.now) }
{
    number(word, 0, u64::MAX).is_none() && is_number(word)
}

/// Whether it is a size that is too great to be counted with, in KB.
#[tactic(auto, using(crate::proofs::NumberLemmas::past_greatest))]
pub fn is_great_size(word: &[u8]) -> bool
    ensures { result ≡ is_past_greatest (size_of word.now) }
{
    size(word).is_none() && is_size(word)
}
