//! Reading the words.
ghost use Rattle.std.specs.Prelude.{◌≡◌, ◌⊎◌, [], MatchOption, Some, IfOk, IfErr, OnErr, map, string_bytes};
ghost use Rattle.clap.specs.Words.{kind_of, found_of, fault_of, rows_of, IsAmong, subcommand_of};
ghost use Rattle.clap.specs.Words.{subcommand_rows_of};
ghost use Rattle.desk_common.specs.Exact.{MayRefuse};
ghost use Rattle.smsd_words.specs.Asking.{AskFor, AsksTask, Finds, Hinders, err_of, store_of};
ghost use Rattle.smsd_words.specs.Command.{smsd};
ghost use Rattle.smsd_words.specs.declared.task.Asked.{Asked as AskedOf};
ghost use Rattle.smsd_words.specs.declared.task.Task.{Task as TaskOf};

use crate::command::smsd_command;
use crate::examples::examples_of;
use crate::manage_words::day_in;
use crate::query_words::query_in;
use crate::run_words::running_in;
use crate::serve_words::serving_in;
use crate::task::{Asked, Task};
use crate::values::{is_set, value_of};
use crate::words_err::WordsErr;
use clap::error::ErrorKind;
use clap::{ArgMatches, Error};
use fault_notes::shown;
use std::alloc::{AllocError, Global};

// The store of words that name none.
const STORE: &str = "desk.db";

// What the command finds in the words.
fn read_matches<'a>(alloc: Global, words: &'a [String]) -> Result<ArgMatches<'a>, Error>
    ensures free { IfOk result (λ _. fault_of smsd (map string_bytes words.entry.now) ≡ []) }
    ensures found { IfOk result (λ m.
        subcommand_rows_of m ≡ subcommand_of smsd (map string_bytes words.entry.now)) }
    ensures err { IfErr result (λ e. (kind_of e ≡ ErrorKind.OutOfMemory)
        ⊎ IsAmong (kind_of e) (fault_of smsd (map string_bytes words.entry.now))) }
{
    let smsd = smsd_command(alloc)?;
    smsd.try_get_matches_from(words)
}

/// What the words ask for, or why they ask for nothing (docs/manual/smsd.md, "Words").
pub fn task_asked<'a>(alloc: Global, words: &'a [String]) -> Result<Asked<'a>, WordsErr>
    ensures asked { IfOk result (AskFor (map string_bytes words.entry.now)) }
    ensures hindered { IfErr result
        (MayRefuse (Hinders (map string_bytes words.entry.now)) (Some WordsErr.NoMemory)) }
    ensures answered { (asked : AskedOf) → AskFor (map string_bytes words.entry.now) asked →
        IfErr result (λ err. err ≡ WordsErr.NoMemory) }
{
    match read_matches(alloc, words) {
        Ok(matches) => asked_or_bad(&matches),
        Err(error) => Err(words_err(error.kind())),
    }
}

// What the subcommand that was found asks for, or that it asks for nothing.
fn asked_or_bad<'a>(matches: &ArgMatches<'a>) -> Result<Asked<'a>, WordsErr>
    ensures asked { IfOk result (Finds (subcommand_rows_of matches.now)) }
    ensures bad { IfErr result (λ err. err ≡ WordsErr.Bad) }
    ensures none { OnErr result ((asked : AskedOf) → Finds (subcommand_rows_of matches.now) asked → ⊥) }
{
    match asked_in(matches) {
        Some(asked) => Ok(asked),
        None => Err(WordsErr::Bad),
    }
}

// What the subcommand that was found asks for.
fn asked_in<'a>(matches: &ArgMatches<'a>) -> Option<Asked<'a>>
    ensures { MatchOption result ((asked : AskedOf) → Finds (subcommand_rows_of matches.now) asked → ⊥)
        (Finds (subcommand_rows_of matches.now)) }
{
    let (name, inner) = matches.subcommand()?;
    match task_of(name, inner) {
        Some(task) => Some(Asked {
            store: store_in(inner),
            task,
        }),
        None => None,
    }
}

// What the subcommand of this name asks for.
fn task_of<'a>(name: &str, matches: &ArgMatches<'a>) -> Option<Task<'a>>
    ensures { MatchOption result
        ((task : TaskOf) → AsksTask name.now (rows_of (found_of matches.now)) task → ⊥)
        (AsksTask name.now (rows_of (found_of matches.now))) }
{
    if name == "run" {
        return match running_in(matches) {
            Some(running) => Some(Task::Run {
                script: value_of(matches, "script"),
                running,
            }),
            None => None,
        };
    }
    if name == "list" {
        return match query_in(matches) {
            Some(query) => Some(Task::List(query)),
            None => None,
        };
    }
    if name == "serve" {
        return match serving_in(matches) {
            Some(serving) => Some(Task::Serve(serving)),
            None => None,
        };
    }
    if name == "check" {
        return match value_of(matches, "deck") {
            Some(deck) => Some(Task::Check { deck }),
            None => None,
        };
    }
    if name == "manage" {
        return match day_in(matches) {
            Some(day) => Some(Task::Manage {
                day,
                dry: is_set(matches, "dry-run"),
            }),
            None => None,
        };
    }
    None
}

// The store that the words name.
fn store_in<'a>(matches: &ArgMatches<'a>) -> &'a str
    ensures { result.now ≡ store_of (rows_of (found_of matches.now)) }
{
    match value_of(matches, "store") {
        Some(store) => store,
        None => STORE,
    }
}

// Why words with an error of this kind ask for nothing.
fn words_err(kind: ErrorKind) -> WordsErr
    ensures { result ≡ err_of kind }
{
    match kind {
        ErrorKind::OutOfMemory => WordsErr::NoMemory,
        ErrorKind::DisplayHelp | ErrorKind::DisplayVersion => WordsErr::Shown,
        _ => WordsErr::Bad,
    }
}

/// The text that answers the words: of help, with an example of each command behind it, of the version, or why they are
/// refused, with question marks for what isn't printed; empty where a value alone isn't as its word asks.
pub fn shown_text(alloc: Global, words: &[String]) -> Result<String, AllocError> {
    let words = printed_words(alloc, words)?;
    text_for(alloc, words.as_slice())
}

fn printed_words(alloc: Global, words: &[String]) -> Result<Vec<String>, AllocError> {
    let mut printed = Vec::new(alloc);
    for word in words {
        printed.push(shown(alloc, word.as_bytes())?)?;
    }
    Ok(printed)
}

// The same, of words as they are.
fn text_for(alloc: Global, words: &[String]) -> Result<String, AllocError> {
    match read_matches(alloc, words) {
        Ok(_) => Ok(String::new(alloc)),
        Err(error) => {
            let examples = examples_behind(alloc, words, error.kind())?;
            format!(in alloc; "{error}{examples}")
        }
    }
}

// What stands behind a text of this kind.
fn examples_behind(alloc: Global, words: &[String], kind: ErrorKind) -> Result<String, AllocError> {
    match (kind, words.first()) {
        (ErrorKind::DisplayHelp, Some(word)) => examples_of(alloc, word.as_str()),
        (ErrorKind::OutOfMemory, _) => Err(AllocError),
        _ => Ok(String::new(alloc)),
    }
}
