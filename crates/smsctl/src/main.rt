//! The desk as a program: it answers the script on standard input or a generated one, or serves the desk over HTTP.
#![tactic(auto)]

ghost use Rattle.std.specs.Prelude.{◌≡◌};
ghost use Rattle.std.specs.Process.{exit_status};
ghost use Rattle.desk_calls.specs.ExitStatus.{exit_status_of};

mod database;
mod explaining;
mod help;
mod kept_source;
mod noted_sink;
mod serving;

use crate::kept_source::KeptSource;
use crate::noted_sink::NotedSink;
use db_calls::database_asked;
use desk_calls::{RunStatus, desk_main};
use desk_notes::{note_replies, note_run, sentence_of};
use desk_words::{managed_day, serve_words};
use manage_calls::manage_main;
use sms_base::{Sink, Source, StdSink, StdSource, Words, read_words};
use sms_desk::FreeGate;
use sms_keeper::MemKeeper;
use std::alloc::Global;
use std::io::{self, Write};
use std::mem::forget;
use std::process::ExitCode;
use std::sync::Wait;
use std::thread::Threads;

// What is said where help or the version can't be written.
const TEXT_FAULT: &str = "standard output can't be written; a front of the text may be there\n";

fn main(rt: HostRuntime) -> ExitCode {
    match read_words(&rt) {
        Words::Faulty => end(
            &rt,
            RunStatus::BadWords,
            "a word of the command line isn't UTF-8\n",
        ),
        Words::NoMemory => end(
            &rt,
            RunStatus::NoMemory,
            "memory is wanting; nothing was read\n",
        ),
        Words::Read(words) => obey(&rt, &rt, &words),
    }
}

// Does what the words of the command line ask, and ends the program.
#[tactic(auto, using(crate::proofs::WordLaws::same_workers))]
fn obey<T: Threads + Wait + Sync>(rt: &HostRuntime, threads: &T, words: &[String]) -> ExitCode {
    if let Some(text) = help::text_for(words) {
        return show(rt, text);
    }
    if let Some(file) = database_asked(words) {
        return database::run(rt, file, words);
    }
    match serve_words(words) {
        Some(asked) => serving::serve(rt, threads, asked, words),
        None => run(rt, threads, words),
    }
}

// Runs the desk, says what failed, and ends the program.
fn run<T: Threads + Wait + Sync>(rt: &HostRuntime, threads: &T, words: &[String]) -> ExitCode {
    let mut note = String::new(rt.alloc());
    let status = answer(rt, threads, words, &mut note);
    end(rt, status, &note)
}

// Answers the script on standard input, or a generated one.
fn answer<T: Threads + Wait + Sync>(
    rt: &HostRuntime,
    threads: &T,
    words: &[String],
    note: &mut String,
) -> RunStatus {
    let mut src = KeptSource::new(rt.alloc(), StdSource::new(rt.reader()));
    let mut out = NotedSink::new(StdSink::new(io::writer(rt)));
    let status = answer_over(rt.alloc(), threads, words, &mut src, &mut out);
    note_run(rt.alloc(), note, words, status, src.given());
    note_replies(rt.alloc(), note, out.seen(), src.given());
    status
}

// Answers a script on a desk over a keeper in memory; where the words name a day, it is managed behind the answers.
fn answer_over<S: Source, K: Sink, T: Threads + Wait + Sync>(
    alloc: Global,
    threads: &T,
    words: &[String],
    src: &mut S,
    out: &mut K,
) -> RunStatus {
    let keeper = MemKeeper::new(alloc);
    let (status, keeper) = match managed_day(words) {
        Some(_) => manage_main(alloc, words, src, out, keeper),
        None => desk_main(alloc, threads, words, src, out, keeper, &FreeGate),
    };
    // The program ends, which frees all at once.
    forget(keeper);
    status
}

// Writes a text to standard output, and ends the program.
fn show(rt: &HostRuntime, text: &str) -> ExitCode {
    match rt.print(text) {
        Ok(()) => end(rt, RunStatus::Done, ""),
        Err(_) => end(rt, RunStatus::WriteFault, TEXT_FAULT),
    }
}

// Says a status other than 0 on standard error, with the script's fault, and what it means: in the words of the note,
// or where there is none in its own. Ends the program with it.
fn end(rt: &HostRuntime, status: RunStatus, note: &str) -> ExitCode
    ensures { exit_status result ≡ exit_status_of status }
{
    let code = status.code();
    let _ = match status {
        RunStatus::Done => Ok(()),
        RunStatus::Script(fault) => eprintln!(rt; "smsctl: status {code} {fault}"),
        _ => eprintln!(rt; "smsctl: status {code}"),
    };
    if note.is_empty() {
        say(rt, sentence_of(status));
    } else {
        say(rt, note);
    }
    ExitCode::from(code)
}

// Says lines on standard error, if there are any.
fn say(rt: &HostRuntime, lines: &str) {
    if !lines.is_empty() {
        let _ = eprint!(rt; "smsctl: {lines}");
    }
}
