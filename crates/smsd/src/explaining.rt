//! What is said of a call that didn't end well, for the person at the terminal (docs/manual/smsd.md, "Exit statuses").
//! Where memory for it is wanting, nothing is said.
use crate::ending::is_done;
use deck_meaning::DeckErr;
use desk_calls::RunStatus;
use desk_common::{Items, Shared};
use desk_notes::note_run;
use fault_notes::{DeckPart, deck_note, shown};
use sms_deck::read_deck;
use sms_keeper::Table;
use sms_open::OpenErr;
use sqlite::{Error, ErrorCode};
use std::alloc::{AllocError, Global};
use std::io;
use store_calls::StoreStatus;

pub const WORDS_FAULT: &str = "a word of the command line isn't UTF-8";

pub const NO_MEMORY: &str = "memory is wanting; nothing was read";

pub const WAITING_FAULT: &str = "the system tells no further event; what was answered is kept";

const BEHIND: &str =
    "the script was answered, and its answers are written; of space management behind it:\n";

pub const TEXT_FAULT: &str = "standard output can't be written; a front of the text may be there";

/// Notes what failed on a store, and what stands.
pub fn note_status(alloc: Global, note: &mut String, status: StoreStatus, script: Option<&[u8]>) {
    match status {
        StoreStatus::Ran(RunStatus::Script(fault)) => {
            note_run(alloc, note, &[], RunStatus::Script(fault), script);
        }
        StoreStatus::Ran(status) => say(note, sentence_of_run(status)),
        StoreStatus::Unopened(err) => note_opening(alloc, note, err),
    }
}

/// Notes that a script was answered and written, where space management behind it came to another end.
pub fn note_behind(note: &mut String, ran: StoreStatus, status: StoreStatus) {
    if is_done(ran) && !is_done(status) {
        say(note, BEHIND);
    }
}

/// Notes what is wrong with a deck, if anything is.
pub fn note_deck(alloc: Global, note: &mut String, deck: Option<&[u8]>) {
    let Some(bytes) = deck else {
        return;
    };
    if let Ok(text) = fault_of_deck(alloc, bytes) {
        say(note, &text);
    }
}

fn fault_of_deck(alloc: Global, bytes: &[u8]) -> Result<String, AllocError> {
    let deck = Shared::new(alloc, Items::from_slice(alloc, bytes)?)?;
    match read_deck(alloc, &deck) {
        Err(DeckErr::Fault(fault)) => {
            let part = DeckPart {
                bytes,
                lines_before: 0,
            };
            deck_note(alloc, part, &fault)
        }
        _ => Ok(String::new(alloc)),
    }
}

fn sentence_of_run(status: RunStatus) -> &'static str {
    match status {
        RunStatus::ReadFault => "the input can't be read; nothing was answered\n",
        RunStatus::WriteFault => {
            "standard output can't be written; a front of the text may be there, and what was answered is kept\n"
        }
        RunStatus::TooLong => "the input has more than 16777216 bytes; nothing was answered\n",
        RunStatus::NoMemory => {
            "memory is wanting; nothing was written, and what was answered is kept\n"
        }
        RunStatus::Done | RunStatus::BadWords | RunStatus::Script(_) => "",
    }
}

// Why no desk goes on from the tables of a store.
fn note_opening(alloc: Global, note: &mut String, err: OpenErr) {
    match err {
        OpenErr::Damaged(table, row) => note_damage(alloc, note, table, row),
        OpenErr::Unsound(number) => note_test(alloc, note, number),
        OpenErr::Failed => say(note, STORE_FAULT),
        OpenErr::NoMemory => say(note, "memory is wanting; nothing was done\n"),
    }
}

// Which row of the store is damaged.
fn note_damage(alloc: Global, note: &mut String, table: Table, row: u64) {
    let name = name_of_table(table);
    if let Ok(made) = format!(in alloc;
        "row {row} of the table {name} is damaged, counted from 0 in the order of its key; nothing was done\n"
    ) {
        say(note, &made);
    }
}

// Which test the rows of the store don't pass.
fn note_test(alloc: Global, note: &mut String, number: u8) {
    if let Ok(made) = format!(in alloc;
        "the store fails test {number} of docs/manual/records.md, \"Found rows\"; nothing was done\n"
    ) {
        say(note, &made);
    }
}

fn name_of_table(table: Table) -> &'static str {
    match table {
        Table::Sets => "sets",
        Table::Replies => "replies",
        Table::Decks => "decks",
        Table::Statuses => "statuses",
        Table::Floors => "floors",
    }
}

/// Notes why the file of a store can't be opened.
pub fn note_unopened(alloc: Global, note: &mut String, path: &str, error: Error) {
    let cause = cause_of(error);
    if let Ok(name) = shown(alloc, path.as_bytes()) {
        if let Ok(made) = format!(in alloc;
            "the store '{name}' can't be opened: {error}{cause}; nothing was done\n"
        ) {
            say(note, &made);
        }
    }
}

/// Notes that there is no such file.
pub fn note_missing(alloc: Global, note: &mut String, path: &str) {
    if let Ok(name) = shown(alloc, path.as_bytes()) {
        if let Ok(made) = format!(in alloc; "there is no store '{name}'; smsd run makes one\n") {
            say(note, &made);
        }
    }
}

/// Notes why the input can't be opened.
pub fn note_unread(alloc: Global, note: &mut String, path: &str, error: io::Error) {
    if let Ok(name) = shown(alloc, path.as_bytes()) {
        if let Ok(made) = format!(in alloc;
            "'{name}' can't be opened: {error}; nothing was answered\n"
        ) {
            say(note, &made);
        }
    }
}

/// Notes why the port can't be had.
pub fn note_port(alloc: Global, note: &mut String, port: u16, error: io::Error) {
    if let Ok(made) = format!(in alloc;
        "port {port} of 127.0.0.1 can't be had: {error}; nothing was served\n"
    ) {
        say(note, &made);
    }
}

// What may be wrong with a file that can't be opened, as a part of a sentence; empty where the error says it.
fn cause_of(error: Error) -> &'static str {
    match error {
        Error::SqliteFailure(ErrorCode::CannotOpen) => UNOPENED,
        Error::SqliteFailure(ErrorCode::DatabaseBusy) => ", for another run or program has it open",
        Error::SqliteFailure(ErrorCode::NotADatabase | ErrorCode::DatabaseCorrupt) => {
            ", so it isn't as a run of the desk leaves it on a disk that keeps what is written"
        }
        _ => "",
    }
}

const UNOPENED: &str =
    ", as where its folder isn't there or can't be written, its name is too long, it has a second hard link or is a \
    symbolic link to nothing, or its name with -journal behind it is the name of a file too";

const STORE_FAULT: &str =
    "the tables can't be made in the store, or not be read: it can't be written, has one of them in another form, or \
    has a view, a trigger or an index of its own under a name of theirs or on one of them; nothing was done\n";

fn say(note: &mut String, sentence: &str) {
    let _ = note.push_str(sentence);
}
