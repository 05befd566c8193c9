//! The lists of words that the program knows.
use sms_construct::read_number;

/// Each list, the shorter ones first. A word in capitals stands for a value.
static FORMS: [&str; 11] = [
    "run",
    "run --volumes",
    "run --workers N",
    "run --workers N --volumes",
    "run --db FILE",
    "run --manage DAY",
    "gen SEED COUNT",
    "serve PORT CONNECTIONS",
    "serve PORT CONNECTIONS --workers N",
    "--help",
    "--version",
];

// How much a word tells of a list in which it is as asked in its place: a word of the list, a number, or any word.
const WORD_IN_PLACE: u32 = 100;

const NUMBER_IN_PLACE: u32 = 40;

const ANY_IN_PLACE: u32 = 10;

// The same where it is as asked in another place.
const WORD_ELSEWHERE: u32 = 60;

const NUMBER_ELSEWHERE: u32 = 20;

/// The list to which the words are nearest; none where they tell of none.
pub fn nearest_form(words: &[String]) -> Option<&'static str> {
    let mut nearest = None;
    let mut most = 0u32;
    for form in &FORMS {
        let likeness = likeness(form, words);
        if likeness > most {
            most = likeness;
            nearest = Some(*form);
        }
    }
    nearest
}

fn likeness(form: &str, words: &[String]) -> u32 {
    let mut sum = 0u32;
    for (at, word) in words.iter().enumerate() {
        sum = sum.saturating_add(word_likeness(form, at, word.as_str()));
    }
    sum
}

fn word_likeness(form: &str, at: usize, word: &str) -> u32 {
    let part = part_of(form, at).unwrap_or("");
    if fits(part, word) {
        in_place(part)
    } else {
        elsewhere(form, word).max(front_of(part, word))
    }
}

fn in_place(part: &str) -> u32 {
    if part == "FILE" {
        ANY_IN_PLACE
    } else if limits_of(part).is_some() {
        NUMBER_IN_PLACE
    } else {
        WORD_IN_PLACE
    }
}

// The name of a file tells nothing in another place.
fn elsewhere(form: &str, word: &str) -> u32 {
    for part in form.split(' ') {
        if part != "FILE" && fits(part, word) {
            return if limits_of(part).is_some() {
                NUMBER_ELSEWHERE
            } else {
                WORD_ELSEWHERE
            };
        }
    }
    0
}

/// The part of a list with this number, from 0.
pub fn part_of(form: &str, at: usize) -> Option<&str> {
    form.split(' ').nth(at)
}

/// Whether the word is as this part of a list asks.
pub fn fits(part: &str, word: &str) -> bool {
    match limits_of(part) {
        Some((least, most)) => is_within(word, least, most),
        None => part == "FILE" || part == word,
    }
}

/// The least and the greatest number that may stand for this part of a list; none where no number does.
pub fn limits_of(part: &str) -> Option<(u32, u32)> {
    match part {
        "N" => Some((1, 16)),
        "DAY" => Some((0, 9_999_999)),
        "SEED" => Some((0, 4_294_967_295)),
        "COUNT" => Some((1, 40_000)),
        "PORT" => Some((1, 65_535)),
        "CONNECTIONS" => Some((1, 1_000_000)),
        _ => None,
    }
}

fn is_within(word: &str, least: u32, most: u32) -> bool {
    match read_number(word.as_bytes()) {
        Some(number) => least <= number && number <= most,
        None => false,
    }
}

// How many bytes at the fronts of the word and of this part of a list are the same; the name of a value tells nothing.
fn front_of(part: &str, word: &str) -> u32 {
    if part == "FILE" || limits_of(part).is_some() {
        return 0;
    }
    shared_front(part, word)
}

// How many bytes at their fronts are the same; dashes, which all options share, tell nothing.
fn shared_front(part: &str, word: &str) -> u32 {
    let mut count = 0u32;
    for (byte, other) in part.as_bytes().iter().zip(word.as_bytes()) {
        if byte != other {
            return count;
        }
        if *byte != b'-' {
            count = count.saturating_add(1);
        }
    }
    count
}
