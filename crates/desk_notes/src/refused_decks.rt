//! Why decks of a script are refused.
use crate::replies::RepliesSeen;
use deck_meaning::DeckErr;
use desk_common::MAX_INPUT;
use fault_notes::{DeckPart, deck_note};
use sms_construct::Op;
use sms_deck::read_deck;
use sms_script::{Item, read_script};
use std::alloc::{AllocError, Global};

// Of so many decks of a script it is told at most.
const MOST_DECKS: usize = 3;

/// Notes what a person is told of the replies that were seen, and how many of them refused something; where one refuses
/// a deck, and the script is known, also what the fault of the deck means and in which line of the script it stands.
pub fn note_replies(alloc: Global, note: &mut String, seen: RepliesSeen, script: Option<&[u8]>) {
    note_meaning(alloc, note, seen, script);
    seen.note_refused(alloc, note);
}

/// The same, and how many replies there were by their codes, in place of those alone that refused something.
pub fn note_all_replies(
    alloc: Global,
    note: &mut String,
    seen: RepliesSeen,
    script: Option<&[u8]>,
) {
    note_meaning(alloc, note, seen, script);
    seen.note_all(alloc, note);
}

fn note_meaning(alloc: Global, note: &mut String, seen: RepliesSeen, script: Option<&[u8]>) {
    seen.note(note);
    if let (true, Some(text)) = (seen.has_refused_deck(), script) {
        note_refused_decks(alloc, note, text);
    }
}

// Notes the faults of the first decks of this script that have one.
fn note_refused_decks(alloc: Global, note: &mut String, text: &[u8]) {
    if text.len() > MAX_INPUT {
        return;
    }
    let Ok(script) = read_script(alloc, text) else {
        return;
    };
    let mut told = 0usize;
    for phase in script.as_slice() {
        for item in phase.as_slice() {
            if told < MOST_DECKS && note_item(alloc, note, item) {
                told = told.saturating_add(1);
            }
        }
    }
}

// Notes what is wrong with the item's deck, and tells whether anything is.
fn note_item(alloc: Global, note: &mut String, item: &Item) -> bool {
    match refusal_of(alloc, item) {
        Ok(Some(text)) => note.push_str(&text).is_ok(),
        _ => false,
    }
}

// What the fault of the item's deck means, if it has one.
fn refusal_of(alloc: Global, item: &Item) -> Result<Option<String>, AllocError> {
    let Op::Activate(deck) = &item.request.op else {
        return Ok(None);
    };
    let Err(DeckErr::Fault(fault)) = read_deck(alloc, deck) else {
        return Ok(None);
    };
    let part = DeckPart {
        bytes: deck.get().as_slice(),
        lines_before: item.line as usize,
    };
    deck_note(alloc, part, &fault).map(Some)
}
