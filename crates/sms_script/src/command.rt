//! The commands that the lines of a script write.
ghost use Rattle.std.specs.Prelude.{◌≡◌, ◌&&◌, ◌∷◌, [], None, Some, bytes_eq, codes, map, option_map, IfOk, OnOk};
ghost use Rattle.std.specs.Prelude.{if◌then◌else◌};
ghost use Rattle.std.specs.Char.{to_ascii_uppercase};
ghost use Rattle.desk_common.specs.Bytes.{space_byte};
ghost use Rattle.desk_common.specs.Words.{words_of};
ghost use Rattle.sms_script.specs.Ops.{number_in};
ghost use Rattle.sms_script.specs.Commands.{admin, command_in, command_of, is_activate, is_admin, request_of};

use crate::line_words::{FEW_WORDS, MOST_WORDS, line_words};
use crate::op::{read_request_number, read_words};
use crate::parts::is_word;
use desk_common::MAX_LINE;
use dsn_mask::Name;
use sms_construct::{Request, RequestNumber};
use std::alloc::{AllocError, Global};

/// What a command line asks.
#[derive(Drop)]
pub enum Command {
    /// The activation of the deck in the lines behind it.
    Activate(RequestNumber),
    /// The end of a phase.
    Sync,
    /// A request that the line alone writes.
    Whole(Request),
}

/// The command that the line writes, if any. The buffer is for its letters in upper case.
pub fn read_command(
    alloc: Global,
    buffer: &mut Vec<u8>,
    text: &[u8],
) -> Result<Option<Command>, AllocError>
    ensures { IfOk result (λ command. command ≡ command_of text.now) }
{
    if text.len() > MAX_LINE {
        return Ok(None);
    }
    upper_case(buffer, text)?;
    if let Some(words) = line_words::<FEW_WORDS>(buffer) {
        return read_line(alloc, &words);
    }
    read_long_line(alloc, buffer)
}

// The command of a line of any number of words. It stands apart, so that its many words take no room where others
// are read.
#[inline(never)]
#[tactic(auto, using(crate::proofs::FewLemmas::no_command))]
fn read_long_line(alloc: Global, line: &[u8]) -> Result<Option<Command>, AllocError>
    ensures { IfOk result (λ command. command ≡ command_in (words_of (space_byte ∷ []) line.now)) }
{
    match line_words::<MOST_WORDS>(line) {
        Some(words) => read_line(alloc, &words),
        None => Ok(None),
    }
}

// Fills the buffer with the text, its letters in upper case.
fn upper_case(buffer: &mut Vec<u8>, text: &[u8]) -> Result<(), AllocError>
    ensures { OnOk result (buffer.new.items ≡ map to_ascii_uppercase text.now) }
{
    buffer.clear();
    buffer.extend_from_slice(text)?;
    buffer.make_ascii_uppercase();
    Ok(())
}

/// The job of the administrator's commands.
pub fn admin() -> Name
    ensures { result ≡ admin }
{
    let Some(name) = Name::new(b"SMSADMIN") else {
        unreachable!()
    };
    name
}

#[inline(always)]
fn read_line(alloc: Global, words: &[&[u8]]) -> Result<Option<Command>, AllocError>
    ensures { IfOk result (λ command. command ≡ command_in (map (λ word. word.now) words.now)) }
{
    match words {
        [] => Ok(None),
        [word] => Ok(read_sync(word)),
        [job, number, rest @ ..] => read_numbered(alloc, job, number, rest),
    }
}

fn read_sync(word: &[u8]) -> Option<Command>
    ensures { result ≡ if bytes_eq word.now (codes "SYNC") then Some Command.Sync else None }
{
    if is_word(word, b"SYNC") {
        Some(Command::Sync)
    } else {
        None
    }
}

#[inline(always)]
fn read_numbered(
    alloc: Global,
    job: &[u8],
    number: &[u8],
    rest: &[&[u8]],
) -> Result<Option<Command>, AllocError>
    ensures { IfOk result (λ command. command ≡ if is_admin job.now && is_activate (map (λ word. word.now) rest.now)
        then option_map (λ n. Command.Activate n) (number_in number.now)
        else request_of job.now number.now (map (λ word. word.now) rest.now)) }
{
    if is_admin(job) && is_activate(rest) {
        Ok(read_request_number(number).map(Command::Activate))
    } else {
        read_request(alloc, job, number, rest)
    }
}

#[inline(always)]
fn read_request(
    alloc: Global,
    job: &[u8],
    number: &[u8],
    rest: &[&[u8]],
) -> Result<Option<Command>, AllocError>
    ensures { IfOk result (λ command. command ≡ request_of job.now number.now (map (λ word. word.now) rest.now)) }
{
    let admin = is_admin(job);
    let (Some(job), Some(number)) = (Name::new(job), read_request_number(number)) else {
        return Ok(None);
    };
    match read_words(alloc, rest, admin)? {
        Some(op) => Ok(Some(Command::Whole(Request { job, number, op }))),
        None => Ok(None),
    }
}

// The word ACTIVATE alone.
fn is_activate(words: &[&[u8]]) -> bool
    ensures { result ≡ is_activate (map (λ word. word.now) words.now) }
{
    match words {
        [word] => is_word(word, b"ACTIVATE"),
        _ => false,
    }
}

fn is_admin(word: &[u8]) -> bool
    ensures { result ≡ is_admin word.now }
{
    is_word(word, b"SMSADMIN")
}
