//! The operands of a command, by their keys.
ghost use Rattle.std.specs.Prelude.{◌≡◌, ◌∷◌, [], true, map, MatchOption};
ghost use Rattle.std.specs.List.{list_all, list_any};
ghost use Rattle.std.specs.Option.{option_copied};
ghost use Rattle.desk_common.specs.Limits.{most_name_bytes};
ghost use Rattle.dsn_mask.specs.Name.{name_of};
ghost use Rattle.sms_construct.specs.Parts.{behind_front};
ghost use Rattle.sms_construct.specs.SpaceText.{space_text};
ghost use Rattle.sms_script.specs.Operands.{are_operands, given, given_or_none, has_key, have_any, is_key, is_key_of};
ghost use Rattle.sms_script.specs.Operands.{is_once, is_operand, keys as all_keys, list_keys, text_keys, values_of};
ghost use Rattle.sms_script.specs.Values.{account_of, count_of, date_of, eattr_of, name_value_of, number_to, plain_of};
ghost use Rattle.sms_script.specs.Values.{volumes_of};

use crate::lists::{read_account, read_volumes};
use crate::value::{
    read_count, read_date, read_eattr, read_name_value, read_number_to, read_plain,
};
use acs_tree::{Account, Volumes};
use desk_common::MAX_NAME;
use dsn_mask::{Name, Short};
use sms_construct::{Eattr, Space, VolumeCount, read_space};

/// The keys of the operands of ALLOC (docs/manual/script.md, "Operands").
pub const KEYS: [&[u8]; 29] = [
    b"SPACE=",
    b"DATACLAS=",
    b"STORCLAS=",
    b"MGMTCLAS=",
    b"DEFDC=",
    b"DEFSC=",
    b"DEFMC=",
    b"VOL=",
    b"VOLCNT=",
    b"USER=",
    b"GROUP=",
    b"PGM=",
    b"DD=",
    b"UNIT=",
    b"DSORG=",
    b"RECORG=",
    b"DSNTYPE=",
    b"DSTYPE=",
    b"ACSENVIR=",
    b"XMODE=",
    b"APPLIC=",
    b"OWNER=",
    b"ACCT=",
    b"STEPACCT=",
    b"RETPD=",
    b"EXPDT=",
    b"BLKSIZE=",
    b"DAY=",
    b"EATTR=",
];

const TEXT_KEYS: [&[u8]; 17] = [
    b"USER=",
    b"GROUP=",
    b"PGM=",
    b"DD=",
    b"APPLIC=",
    b"UNIT=",
    b"DSORG=",
    b"RECORG=",
    b"DSNTYPE=",
    b"DSTYPE=",
    b"OWNER=",
    b"EXPDT=",
    b"ACSENVIR=",
    b"XMODE=",
    b"DEFDC=",
    b"DEFSC=",
    b"DEFMC=",
];

const LIST_KEYS: [&[u8]; 3] = [b"ACCT=", b"STEPACCT=", b"VOL="];

/// Whether the name is the key of an operand, in capitals and without the equals sign.
pub fn is_key(name: &[u8]) -> bool
    ensures { result ≡ is_key name.now }
{
    is_key_among(name, &KEYS)
}

fn is_key_among(name: &[u8], mut keys: &[&[u8]]) -> bool
    ensures { result ≡ list_any (is_key_of name.now) (map (λ key. key.now) keys.entry.now) }
{
    while let [key, others @ ..] = keys {
        if is_key_of(name, key) {
            return true;
        }
        keys = others;
    }
    false
}

// Whether the key is this name and an equals sign.
#[tactic(auto, using(crate::proofs::KeyLemmas::key_is))]
fn is_key_of(name: &[u8], key: &[u8]) -> bool
    ensures { result ≡ is_key_of name.now key.now }
{
    match behind_key(name, key) {
        Some(end) => end == b"=".as_slice(),
        None => false,
    }
}

/// Whether each of the words has one of the keys, and no key stands twice.
pub fn are_operands(words: &[&[u8]]) -> bool
    ensures { result ≡ are_operands (map (λ word. word.now) words.now) }
{
    are_known(words) && are_all_once(words)
}

// Whether no key stands twice, as none can in one word.
fn are_all_once(words: &[&[u8]]) -> bool
    ensures { result ≡ list_all (is_once (map (λ word. word.now) words.now)) all_keys }
{
    if words.len() < 2 {
        return true;
    }
    are_once(words, &KEYS)
}

fn are_known(mut words: &[&[u8]]) -> bool
    ensures { result ≡ list_all is_operand (map (λ word. word.now) words.entry.now) }
{
    while let [word, others @ ..] = words {
        if !is_operand(word) {
            return false;
        }
        words = others;
    }
    true
}

fn are_once(words: &[&[u8]], mut keys: &[&[u8]]) -> bool
    ensures { result ≡ list_all (is_once (map (λ word. word.now) words.now)) (map (λ key. key.now) keys.entry.now) }
{
    while let [key, others @ ..] = keys {
        if !is_once(words, key) {
            return false;
        }
        keys = others;
    }
    true
}

fn is_once(words: &[&[u8]], key: &[u8]) -> bool
    ensures { result ≡ is_once (map (λ word. word.now) words.now) key.now }
{
    match first_value(key, words) {
        Some((_, others)) => first_value(key, others).is_none(),
        None => true,
    }
}

fn is_operand(word: &[u8]) -> bool
    ensures { result ≡ is_operand word.now }
{
    has_any(word, &KEYS)
}

fn has_any(word: &[u8], mut keys: &[&[u8]]) -> bool
    ensures { result ≡ list_any (has_key word.now) (map (λ key. key.now) keys.entry.now) }
{
    while let [key, others @ ..] = keys {
        if has_key(word, key) {
            return true;
        }
        keys = others;
    }
    false
}

/// Whether one of these words gives a text that routines see.
pub fn has_text(words: &[&[u8]]) -> bool
    ensures { result ≡ have_any text_keys (map (λ word. word.now) words.now) }
{
    have_any(words, &TEXT_KEYS)
}

/// Whether one of these words gives a list that routines see.
pub fn has_list(words: &[&[u8]]) -> bool
    ensures { result ≡ have_any list_keys (map (λ word. word.now) words.now) }
{
    have_any(words, &LIST_KEYS)
}

// Whether one of these words has one of these keys.
fn have_any(mut words: &[&[u8]], keys: &[&[u8]]) -> bool
    ensures { result ≡ have_any (map (λ key. key.now) keys.now) (map (λ word. word.now) words.entry.now) }
{
    while let [word, others @ ..] = words {
        if has_any(word, keys) {
            return true;
        }
        words = others;
    }
    false
}

fn has_key(word: &[u8], key: &[u8]) -> bool
    ensures { result ≡ has_key word.now key.now }
{
    behind_key(key, word).is_some()
}

// What is behind the key, if the word begins with it. `behind_front` says the same, and is made for a front whose
// length is known where it is called; the keys here come from a list, and most differ from a word in the first bytes.
fn behind_key<'a>(key: &[u8], word: &'a [u8]) -> Option<&'a [u8]>
    ensures { option_copied result ≡ behind_front key.now word.entry.now }
{
    if word.len() < key.len() || &word[..key.len()] != key {
        return None;
    }
    Some(&word[key.len()..])
}

// The value behind the first of these words that has the key, and the words behind that.
fn first_value<'a, 'b>(key: &[u8], words: &'b [&'a [u8]]) -> Option<(&'a [u8], &'b [&'a [u8]])>
    ensures { MatchOption result (values_of key.now (map (λ word. word.now) words.entry.now) ≡ [])
        (λ found. values_of key.now (map (λ word. word.now) words.entry.now) ≡
        found.0.now ∷ values_of key.now (map (λ word. word.now) found.1.now)) }
{
    let mut rest = words;
    while let [word, others @ ..] = rest {
        if let Some(value) = behind_key(key, word) {
            return Some((value, others));
        }
        rest = others;
    }
    None
}

/// A text of at most 8 bytes; the default where none has the key.
pub fn word_at(key: &[u8], default: Short, words: &[&[u8]]) -> Option<Short>
    ensures { result ≡ given key.now (plain_of most_name_bytes) default (map (λ word. word.now) words.now) }
{
    match first_value(key, words) {
        Some((value, _)) => read_plain(MAX_NAME, value),
        None => Some(default),
    }
}

/// A name as a value of routines; null where none has the key.
pub fn name_value_at(key: &[u8], words: &[&[u8]]) -> Option<Short>
    ensures { result ≡ given key.now name_value_of [] (map (λ word. word.now) words.now) }
{
    match first_value(key, words) {
        Some((value, _)) => read_name_value(value),
        None => Some(Short::null()),
    }
}

/// Seven digits; null where none has the key.
pub fn date_at(key: &[u8], words: &[&[u8]]) -> Option<Short>
    ensures { result ≡ given key.now date_of [] (map (λ word. word.now) words.now) }
{
    match first_value(key, words) {
        Some((value, _)) => read_date(value),
        None => Some(Short::null()),
    }
}

/// Up to 8 texts; none where none has the key.
pub fn account_at(key: &[u8], words: &[&[u8]]) -> Option<Account>
    ensures { result ≡ given key.now account_of [] (map (λ word. word.now) words.now) }
{
    match first_value(key, words) {
        Some((value, _)) => read_account(value),
        None => Some(Account::new()),
    }
}

/// Up to 59 volumes; none where none has the key.
pub fn volumes_at(key: &[u8], words: &[&[u8]]) -> Option<Volumes>
    ensures { result ≡ given key.now volumes_of [] (map (λ word. word.now) words.now) }
{
    match first_value(key, words) {
        Some((value, _)) => read_volumes(value),
        None => Some(Volumes::new()),
    }
}

/// A number up to this one; 0 where none has the key.
pub fn number_at(key: &[u8], most: u32, words: &[&[u8]]) -> Option<u32>
    ensures { result ≡ given key.now (number_to most) 0 (map (λ word. word.now) words.now) }
{
    match first_value(key, words) {
        Some((value, _)) => read_number_to(most, value),
        None => Some(0),
    }
}

/// A number up to this one, if a word has the key.
pub fn some_number_at(key: &[u8], most: u32, words: &[&[u8]]) -> Option<Option<u32>>
    ensures { result ≡ given_or_none key.now (number_to most) (map (λ word. word.now) words.now) }
{
    match first_value(key, words) {
        Some((value, _)) => Some(Some(read_number_to(most, value)?)),
        None => Some(None),
    }
}

/// A name, if a word has the key.
pub fn name_at(key: &[u8], words: &[&[u8]]) -> Option<Option<Name>>
    ensures { result ≡ given_or_none key.now name_of (map (λ word. word.now) words.now) }
{
    match first_value(key, words) {
        Some((value, _)) => Some(Some(Name::new(value)?)),
        None => Some(None),
    }
}

/// A space, if a word has the key.
pub fn space_at(key: &[u8], words: &[&[u8]]) -> Option<Option<Space>>
    ensures { result ≡ given_or_none key.now space_text (map (λ word. word.now) words.now) }
{
    match first_value(key, words) {
        Some((value, _)) => Some(Some(read_space(value)?)),
        None => Some(None),
    }
}

/// A volume count, if a word has the key.
pub fn count_at(key: &[u8], words: &[&[u8]]) -> Option<Option<VolumeCount>>
    ensures { result ≡ given_or_none key.now count_of (map (λ word. word.now) words.now) }
{
    match first_value(key, words) {
        Some((value, _)) => Some(Some(read_count(value)?)),
        None => Some(None),
    }
}

/// Whether the data set may lie on cylinder-managed space, if a word has the key.
pub fn eattr_at(key: &[u8], words: &[&[u8]]) -> Option<Option<Eattr>>
    ensures { result ≡ given_or_none key.now eattr_of (map (λ word. word.now) words.now) }
{
    match first_value(key, words) {
        Some((value, _)) => Some(Some(read_eattr(value)?)),
        None => Some(None),
    }
}
