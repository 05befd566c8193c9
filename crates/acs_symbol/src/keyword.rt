// What a word or a sign is, by its text.
ghost use Rattle.std.specs.Prelude.{◌≡◌, ◌≤◌, length};
ghost use Rattle.std.specs.Str.{str_to_ascii_uppercase};
ghost use Rattle.desk_common.specs.Limits.{most_word_bytes};
ghost use Rattle.acs_symbol.specs.Symbols.{comparisons, listed, number_kind, word_kind, sign_of};
ghost use Rattle.acs_symbol.specs.Inner.Keywords.{kind_among};

use crate::symbol::{Symbol, WordKind};
use acs_tree::{Compare, are_digits, is_upper};
use desk_common::{MAX_WORD, are_same};

/// What the word can be besides a name, its letters in either case. Most words are keywords or numbers, or have no
/// small letter: they are read where they stand.
pub fn kind_in_any_case(text: &[u8]) -> WordKind
    requires { length text.now ≤ most_word_bytes }
    ensures { result ≡ word_kind (str_to_ascii_uppercase text.now) }
{
    match word_kind(text) {
        WordKind::Other => other_kind(text),
        kind => kind,
    }
}

// The same of a word that is nothing besides a name as it stands.
#[tactic(auto, using(crate::proofs::KeywordLemmas::kind_stays))]
fn other_kind(text: &[u8]) -> WordKind
    requires fits { length text.now ≤ most_word_bytes }
    requires other { word_kind text.now ≡ WordKind.Other }
    ensures { result ≡ word_kind (str_to_ascii_uppercase text.now) }
{
    if is_upper(text) {
        WordKind::Other
    } else {
        raised_kind(text)
    }
}

#[inline(never)]
fn raised_kind(text: &[u8]) -> WordKind
    requires { length text.now ≤ most_word_bytes }
    ensures { result ≡ word_kind (str_to_ascii_uppercase text.now) }
{
    let mut upper = [0; MAX_WORD];
    let upper = &mut upper[..text.len()];
    upper.copy_from_slice(text);
    upper.make_ascii_uppercase();
    word_kind(upper)
}

// A word is held against the keywords of its length alone.
#[tactic(auto, using(crate::proofs::KeywordLemmas::among_its_length))]
fn word_kind(text: &[u8]) -> WordKind
    ensures { result ≡ word_kind text.now }
{
    match text.len() {
        2 => of_two(text),
        3 => of_three(text),
        4 => of_four(text),
        5 => of_five(text),
        6 => of_six(text),
        7 => of_seven(text),
        8 => of_eight(text),
        9 => of_nine(text),
        _ => number_kind(text),
    }
}

#[tactic(auto, unfolding(crate::specs::Inner::Keywords::kind_among))]
fn of_two(text: &[u8]) -> WordKind
    ensures { result ≡ kind_among 2 text.now }
{
    match text {
        b"DO" => WordKind::Do,
        b"IF" => WordKind::If,
        b"OR" => WordKind::Or,
        _ => compare_kind(text),
    }
}

fn compare_kind(text: &[u8]) -> WordKind
    ensures { result ≡ listed comparisons text.now (number_kind text.now) }
{
    match text {
        b"EQ" => WordKind::Compare(Compare::Eq),
        b"NE" => WordKind::Compare(Compare::Ne),
        b"GT" => WordKind::Compare(Compare::Gt),
        b"LT" => WordKind::Compare(Compare::Lt),
        b"GE" => WordKind::Compare(Compare::Ge),
        b"LE" => WordKind::Compare(Compare::Le),
        b"NG" => WordKind::Compare(Compare::Ng),
        b"NL" => WordKind::Compare(Compare::Nl),
        _ => number_kind(text),
    }
}

#[tactic(auto, unfolding(crate::specs::Inner::Keywords::kind_among))]
fn of_three(text: &[u8]) -> WordKind
    ensures { result ≡ kind_among 3 text.now }
{
    match text {
        b"END" => WordKind::End,
        b"SET" => WordKind::Set,
        b"AND" => WordKind::And,
        _ => number_kind(text),
    }
}

#[tactic(auto, unfolding(crate::specs::Inner::Keywords::kind_among))]
fn of_four(text: &[u8]) -> WordKind
    ensures { result ≡ kind_among 4 text.now }
{
    if are_same(text, b"PROC") {
        WordKind::Proc
    } else if are_same(text, b"EXIT") {
        WordKind::Exit
    } else if are_same(text, b"THEN") {
        WordKind::Then
    } else if are_same(text, b"ELSE") {
        WordKind::Else
    } else if are_same(text, b"WHEN") {
        WordKind::When
    } else if are_same(text, b"CODE") {
        WordKind::Code
    } else {
        number_kind(text)
    }
}

#[tactic(auto, unfolding(crate::specs::Inner::Keywords::kind_among))]
fn of_five(text: &[u8]) -> WordKind
    ensures { result ≡ kind_among 5 text.now }
{
    if are_same(text, b"WRITE") {
        WordKind::Write
    } else {
        number_kind(text)
    }
}

#[tactic(auto, unfolding(crate::specs::Inner::Keywords::kind_among))]
fn of_six(text: &[u8]) -> WordKind
    ensures { result ≡ kind_among 6 text.now }
{
    if are_same(text, b"SELECT") {
        WordKind::Select
    } else {
        number_kind(text)
    }
}

#[tactic(auto, unfolding(crate::specs::Inner::Keywords::kind_among))]
fn of_seven(text: &[u8]) -> WordKind
    ensures { result ≡ kind_among 7 text.now }
{
    if are_same(text, b"INCLUDE") {
        WordKind::Include
    } else if are_same(text, b"EXCLUDE") {
        WordKind::Exclude
    } else {
        number_kind(text)
    }
}

#[tactic(auto, unfolding(crate::specs::Inner::Keywords::kind_among))]
fn of_eight(text: &[u8]) -> WordKind
    ensures { result ≡ kind_among 8 text.now }
{
    if are_same(text, b"FILTLIST") {
        WordKind::FiltList
    } else {
        number_kind(text)
    }
}

#[tactic(auto, unfolding(crate::specs::Inner::Keywords::kind_among))]
fn of_nine(text: &[u8]) -> WordKind
    ensures { result ≡ kind_among 9 text.now }
{
    if are_same(text, b"OTHERWISE") {
        WordKind::Otherwise
    } else {
        number_kind(text)
    }
}

fn number_kind(text: &[u8]) -> WordKind
    ensures { result ≡ number_kind text.now }
{
    if are_digits(text) {
        WordKind::Number
    } else {
        WordKind::Other
    }
}

/// The sign with this text: one of the scanner's.
pub fn sign(text: &[u8]) -> Symbol<'_>
    ensures { result ≡ sign_of text.now }
{
    match text {
        b"&&" => Symbol::AndSign,
        b"|" => Symbol::OrSign,
        b"(" => Symbol::Open,
        b")" => Symbol::Close,
        b"=" => Symbol::Operator(Compare::Eq),
        b"^=" => Symbol::Operator(Compare::Ne),
        b">" => Symbol::Operator(Compare::Gt),
        b"<" => Symbol::Operator(Compare::Lt),
        b">=" => Symbol::Operator(Compare::Ge),
        b"<=" => Symbol::Operator(Compare::Le),
        b"^>" => Symbol::Operator(Compare::Ng),
        b"^<" => Symbol::Operator(Compare::Nl),
        _ => Symbol::Comma,
    }
}
