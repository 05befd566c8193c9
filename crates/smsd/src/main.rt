//! The lasting desk as a program: it answers a script on a store, lists what the store holds, serves it, checks a deck
//! or manages space there.
#![tactic(auto)]

ghost use Rattle.std.specs.Process.{exit_status};
ghost use Rattle.smsd.specs.Ends.{IsTaskEnd};

mod checking;
mod closing;
mod ending;
mod explaining;
mod kept_source;
mod listing;
mod managing;
mod noted_sink;
mod running;
mod serving;
mod store;

use crate::ending::end;
use crate::explaining::{NO_MEMORY, TEXT_FAULT, WORDS_FAULT};
use sms_base::{Words, read_words};
use smsd_words::{Asked, Task, WordsErr, shown_text, task_asked, values_wanted};
use std::process::ExitCode;

fn main(rt: HostRuntime) -> ExitCode {
    match read_words(&rt) {
        Words::Faulty => end(&rt, 2, WORDS_FAULT),
        Words::NoMemory => end(&rt, 7, NO_MEMORY),
        Words::Read(words) => obey(&rt, &words),
    }
}

// Does what the words of the command line ask, and ends the program.
fn obey(rt: &HostRuntime, words: &[String]) -> ExitCode {
    match task_asked(rt.alloc(), words) {
        Ok(Asked { store, task }) => act(rt, store, &task),
        Err(err) => answer_words(rt, words, err),
    }
}

// Does the task on the store, and ends the program.
fn act(rt: &HostRuntime, store: &str, task: &Task<'_>) -> ExitCode
    ensures { IsTaskEnd task.now (exit_status result) }
{
    match task {
        Task::Run {
            script: None,
            running,
        } => running::run(rt, store, *running),
        Task::Run {
            script: Some(path),
            running,
        } => running::run_file(rt, store, *running, path),
        Task::List(query) => listing::list(rt, store, query),
        Task::Serve(serving) => serving::serve(rt, store, *serving),
        Task::Check { deck } => checking::check(rt, store, deck),
        Task::Manage { day, dry } => managing::manage(rt, store, *day, *dry),
    }
}

// Answers words that ask for no task, and ends the program.
fn answer_words(rt: &HostRuntime, words: &[String], err: WordsErr) -> ExitCode {
    let Ok(text) = shown_text(rt.alloc(), words) else {
        return end(rt, 7, NO_MEMORY);
    };
    match err {
        WordsErr::NoMemory => end(rt, 7, NO_MEMORY),
        WordsErr::Shown => show(rt, &text),
        WordsErr::Bad if text.is_empty() => end(rt, 2, values_wanted(words)),
        WordsErr::Bad => end(rt, 2, text.trim_end()),
    }
}

// Writes a text to standard output, and ends the program.
fn show(rt: &HostRuntime, text: &str) -> ExitCode {
    match rt.print(text) {
        Ok(()) => ExitCode::from(0),
        Err(_) => end(rt, 4, TEXT_FAULT),
    }
}
