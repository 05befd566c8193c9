//! What is said of a run over a database and of a served desk that didn't end well, for the person at the terminal
//! (docs/manual/script.md, "What is said of a fault"). Where memory for it is wanting, nothing is said.
use db_calls::DbStatus;
use desk_calls::RunStatus;
use desk_notes::note_run;
use serve_calls::ServeStatus;
use sms_keeper::Table;
use sms_open::OpenErr;
use sqlite::{Error, ErrorCode};
use std::alloc::Global;

/// What failed in a run with the records in a database, and what stands.
pub fn note_database(
    alloc: Global,
    note: &mut String,
    words: &[String],
    status: DbStatus,
    script: Option<&[u8]>,
) {
    match status {
        DbStatus::Ran(RunStatus::NoMemory) => say(note, NO_MEMORY),
        DbStatus::Ran(status) => note_run(alloc, note, words, status, script),
        DbStatus::StoreFault => say(note, STORE_FAULT),
        DbStatus::Store(err) => note_store(alloc, note, err),
    }
}

// Why no desk goes on from the tables of a file.
fn note_store(alloc: Global, note: &mut String, err: OpenErr) {
    match err {
        OpenErr::Damaged(table, row) => note_damage(alloc, note, table, row),
        OpenErr::Unsound(number) => say(note, sentence_of_test(number)),
        OpenErr::Failed | OpenErr::NoMemory => (),
    }
}

// Which row of the file is damaged.
fn note_damage(alloc: Global, note: &mut String, table: Table, row: u64) {
    let name = name_of_table(table);
    if let Ok(made) = format!(in alloc;
        "row {row} of the table {name} is damaged, counted from 0 in the order of its key; nothing was answered\n"
    ) {
        say(note, &made);
    }
}

fn name_of_table(table: Table) -> &'static str {
    match table {
        Table::Sets => "sets",
        Table::Replies => "replies",
        Table::Decks => "decks",
        Table::Statuses => "statuses",
        Table::Floors => "floors",
    }
}

// What a test of found rows asks (docs/manual/records.md, "Found rows").
fn sentence_of_test(number: u8) -> &'static str {
    match number {
        1 => "test 1: two rows of the file have one key; nothing was answered\n",
        2 =>
            "test 2: the decks of the file aren't numbered from 1 in order, or a data set or a status \
            stands there without any; nothing was answered\n",
        3 =>
            "test 3: the last deck of the file has a fault, which smsc validate shows; nothing was answered\n",
        4 => "test 4: the statuses of the file aren't those of its last deck's groups and volumes; \
            nothing was answered\n",
        5 =>
            "test 5: a data set of the file can't lie where its extents are; nothing was answered\n",
        _ =>
            "test 6: a reply or a floor of the file is none that a desk leaves; nothing was answered\n",
    }
}

/// What may be wrong with a file that can't be opened, as a part of a sentence; empty where the error says it.
pub fn cause_of(error: Error) -> &'static str {
    match error {
        Error::SqliteFailure(ErrorCode::CannotOpen) => UNOPENED,
        Error::SqliteFailure(ErrorCode::DatabaseBusy) => ", for another run or program has it open",
        Error::SqliteFailure(ErrorCode::NotADatabase | ErrorCode::DatabaseCorrupt) => {
            ", so it isn't as a run of the desk leaves it on a disk that keeps what is written"
        }
        _ => "",
    }
}

/// What failed while the desk was served, and what stands; none where all went well.
pub fn sentence_of_serving(status: ServeStatus) -> Option<&'static str> {
    match status {
        ServeStatus::Done => None,
        ServeStatus::BadWords => Some(SERVE_WORDS),
        ServeStatus::WriteFault => Some(SERVE_WRITE),
        ServeStatus::NoMemory => Some(SERVE_MEMORY),
        ServeStatus::AcceptFault => Some(SERVE_PORT),
    }
}

const UNOPENED: &str =
    ", as where its folder isn't there or can't be written, its name is too long, it has a second hard link or is a \
    symbolic link to nothing, or its name with -journal behind it is the name of a file too";

const STORE_FAULT: &str =
    "the tables can't be made in the file, or not be read: it can't be written, has one of them in another form, \
    or has a view, a trigger or an index of its own under a name of theirs or on one of them; nothing was answered\n";

const SERVE_WORDS: &str = "the words of the command line are none that serve the desk";

const SERVE_WRITE: &str = "standard output can't be written; the connections were served, \
    and a front of their lines may be there";

const SERVE_MEMORY: &str = "memory is wanting; connections may have been answered, \
    and no line of theirs was written";

const SERVE_PORT: &str = "the port gave a worker no further connection; all that were given \
    were served, and their lines are written";

const NO_MEMORY: &str =
    "memory is wanting; no answer was written, and the file is as it was, or has all that was answered\n";

fn say(note: &mut String, sentence: &str) {
    let _ = note.push_str(sentence);
}
