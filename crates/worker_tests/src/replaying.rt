// Whether the answers of several workers are those of one history, as one worker would give it.
use acs_tree::Slate;
use desk_workers::run_workers;
use sms_construct::{Answer, Entry, Reply, Request};
use sms_core::{Core, Work};
use sms_desk::FreeGate;
use sms_keeper::Keeper;
use sms_script::{Script, TextLines, answer_lines};
use std::alloc::Global;
use std::sync::Wait;
use std::thread::Threads;

// How many entries a full journal has.
const FULL: usize = 50_000;

// Runs a script by so many workers, 2 to 16, on a core. Each answer has to stand in the journal at its place, and the
// journal's requests, asked one behind the other of another core like it, have to get the same answers. Where memory is
// wanting that isn't so.
pub fn is_one_history<P: Keeper + Send, R: Threads + Wait + Sync>(
    alloc: Global,
    rt: &R,
    script: &Script,
    workers: usize,
    core: Core<P>,
    again: &mut Core<P>,
) -> bool {
    if workers < 2 || 16 < workers {
        return false;
    }
    let (answers, core) = run_workers(alloc, rt, script, core, workers, &FreeGate);
    match answers {
        Ok(answers) => {
            are_entered(alloc, script, answers.as_slice(), core.journal())
                && is_replayed(alloc, core.journal(), again)
        }
        Err(_) => false,
    }
}

// Each item has its answer, in script order, and the answer stands in the journal, in which nothing else stands; or the
// journal was full.
fn are_entered(alloc: Global, script: &Script, answers: &[Answer], journal: &[Entry]) -> bool {
    let mut rest = answers.iter();
    let mut entered: usize = 0;
    for phase in script.as_slice() {
        for item in phase.as_slice() {
            let Some(answer) = rest.next() else {
                return false;
            };
            if is_entered(alloc, &item.request, answer, journal) {
                entered = entered.saturating_add(1);
            } else if !is_full(answer, journal) {
                return false;
            }
        }
    }
    rest.next().is_none() && entered == journal.len()
}

// The answer is that the journal is full, and it is.
fn is_full(answer: &Answer, journal: &[Entry]) -> bool {
    answer.place == 0 && matches!(&answer.reply, Reply::JournalFull) && journal.len() == FULL
}

fn is_entered(alloc: Global, request: &Request, answer: &Answer, journal: &[Entry]) -> bool {
    let Some(at) = answer.place.checked_sub(1) else {
        return false;
    };
    match journal.get(at as usize) {
        Some(entry) => {
            entry.request.job == request.job
                && entry.request.number == request.number
                && is_same(alloc, &entry.answer, answer)
        }
        None => false,
    }
}

// A core that is asked the requests of a journal, one behind the other, gives its answers.
fn is_replayed<P: Keeper>(alloc: Global, journal: &[Entry], core: &mut Core<P>) -> bool {
    let Ok(mut slate) = Slate::new(alloc) else {
        return false;
    };
    for entry in journal {
        if !is_again(alloc, entry, core, &mut slate) {
            return false;
        }
    }
    true
}

fn is_again<P: Keeper>(
    alloc: Global,
    entry: &Entry,
    core: &mut Core<P>,
    slate: &mut Slate,
) -> bool {
    let again = core.step(&entry.request, Work::Nothing, slate);
    is_same(alloc, &entry.answer, &again)
}

// The answers have the same places and the same lines.
fn is_same(alloc: Global, one: &Answer, other: &Answer) -> bool {
    one.place == other.place && one.first == other.first && is_printed(alloc, one, other)
}

fn is_printed(alloc: Global, one: &Answer, other: &Answer) -> bool {
    match answer_lines(alloc, one) {
        Ok(lines) => has_lines(alloc, other, &lines),
        Err(_) => false,
    }
}

fn has_lines(alloc: Global, answer: &Answer, lines: &TextLines) -> bool {
    match answer_lines(alloc, answer) {
        Ok(found) => are_same_lines(&found, lines),
        Err(_) => false,
    }
}

fn are_same_lines(one: &TextLines, other: &TextLines) -> bool {
    let mut rest = other.as_slice().iter();
    for line in one.as_slice() {
        match rest.next() {
            Some(next) if next.as_slice() == line.as_slice() => {}
            _ => return false,
        }
    }
    rest.next().is_none()
}
