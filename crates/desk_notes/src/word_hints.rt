//! What may be meant by words that the program doesn't know.
use std::alloc::{AllocError, Global};

/// The options of a run that have a value.
const VALUED: [&str; 3] = ["--workers", "--db", "--manage"];

/// The pairs of options that no list has both of.
const APART: [(&str, &str); 5] = [
    ("--db", "--workers"),
    ("--db", "--volumes"),
    ("--db", "--manage"),
    ("--manage", "--workers"),
    ("--manage", "--volumes"),
];

/// What may be meant, as a part of a sentence; empty where nothing is known.
pub fn hint_of(alloc: Global, words: &[String]) -> Result<String, AllocError> {
    if let Some(option) = glued_option(words) {
        return format!(in alloc; "; the value of {option} is a word of its own behind it");
    }
    if has_word(words, "-h") {
        return String::from_str(alloc, "; the word for help is --help, alone");
    }
    for (one, other) in &APART {
        if has_word(words, one) && has_word(words, other) {
            return format!(in alloc; "; {one} and {other} don't go together");
        }
    }
    Ok(String::new(alloc))
}

// The option that a word has together with its value.
fn glued_option(words: &[String]) -> Option<&'static str> {
    for word in words {
        for option in &VALUED {
            let behind = word.as_str().strip_prefix(option);
            if behind.is_some_and(|behind| behind.starts_with("=")) {
                return Some(*option);
            }
        }
    }
    None
}

fn has_word(words: &[String], wanted: &str) -> bool {
    words.iter().any(|word| word.as_str() == wanted)
}
