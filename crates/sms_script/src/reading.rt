//! Reading a script.
ghost use Rattle.std.specs.Prelude.{◌≡◌, ◌≤◌, ◌<◌, ◌+◌, ◌^◌, ◌++◌, ◌∷◌, [], false, Ok, Some, length, IfOk, IfErr, OnOk};
ghost use Rattle.desk_common.specs.Limits.{most_commands};
ghost use Rattle.sms_script.specs.Lines.{lines_of};
ghost use Rattle.sms_script.specs.Script.{IsRefusal, if_few, script_from, script_of};
ghost use Rattle.sms_script.specs.Inner.Reading.{found_before, script_at, script_behind};

use crate::command::{Command, admin, read_command};
use crate::deck_block::deck_block;
use crate::item::{Item, Phase, Script};
use crate::lines::{first_line, is_skipped, line_text};
use crate::next::{Found, Next, Progress};
use crate::script_err::ScriptErr;
use desk_common::{Items, MAX_COMMANDS, Shared};
use sms_construct::{DeckText, Op, Request, RequestNumber};
use std::alloc::{AllocError, Global};

/// The script that the bytes write, or its first fault (docs/manual/script.md). It walks once over the text,
/// and copies the decks, and each command line into one buffer.
pub fn read_script(alloc: Global, bytes: &[u8]) -> Result<Script, ScriptErr>
    requires { length bytes.now < 2 ^ 32 }
    ensures script { IfOk result (λ phases. script_of bytes.now ≡ Ok phases) }
    ensures refused { IfErr result (IsRefusal (script_of bytes.now)) }
{
    let mut phases = Items::new(alloc);
    let mut phase = Items::new(alloc);
    let mut buffer = Vec::new(alloc);
    let mut rest = bytes;
    let mut passed = Progress {
        commands: 0,
        lines: 0,
    };
    while !rest.is_empty() {
        let Next {
            found,
            rest: behind,
            passed: further,
        } = read_next(alloc, &mut buffer, passed, rest)?;
        match found {
            Found::Nothing => {}
            Found::Asked(item) => push_item(&mut phase, item)?,
            Found::PhaseEnd => {
                push_phase(&mut phases, phase)?;
                phase = Items::new(alloc);
            }
        }
        rest = behind;
        passed = further;
    }
    push_phase(&mut phases, phase)?;
    Ok(phases)
}

fn push_item(phase: &mut Phase, item: Item) -> Result<(), ScriptErr>
    ensures phase { OnOk result (phase.new ≡ phase.old ++ item ∷ []) }
    ensures memory { IfErr result (λ err. err ≡ ScriptErr.NoMemory) }
{
    match phase.push(item) {
        Ok(()) => Ok(()),
        Err(_) => Err(ScriptErr::NoMemory),
    }
}

fn push_phase(phases: &mut Script, phase: Phase) -> Result<(), ScriptErr>
    ensures phases { OnOk result (phases.new ≡ phases.old ++ phase ∷ []) }
    ensures memory { IfErr result (λ err. err ≡ ScriptErr.NoMemory) }
{
    match phases.push(phase) {
        Ok(()) => Ok(()),
        Err(_) => Err(ScriptErr::NoMemory),
    }
}

// What the first line of a text gives, which is no line of a deck block.
fn read_next<'a>(
    alloc: Global,
    buffer: &mut Vec<u8>,
    passed: Progress,
    text: &'a [u8],
) -> Result<Next<'a>, ScriptErr>
    requires some { 0 < length text.now }
    requires fits { passed.lines + length text.now < 2 ^ 32 }
    requires few { passed.commands ≤ most_commands }
    ensures next { IfOk result (λ next. script_behind passed text.entry.now ≡
        found_before next.found (script_behind next.passed next.rest.now)) }
    ensures fewer { IfOk result (λ next.
        next.passed.lines + length next.rest.now ≤ passed.lines + length text.entry.now) }
    ensures few { IfOk result (λ next. next.passed.commands ≤ most_commands) }
    ensures shorter { IfOk result (λ next. length next.rest.now < length text.entry.now) }
    ensures refused { IfErr result (IsRefusal (script_behind passed text.entry.now)) }
{
    let (first, rest) = first_line(text);
    let at = Progress {
        commands: passed.commands,
        lines: passed.lines + 1,
    };
    let text = line_text(first);
    if is_skipped(text) {
        return Ok(Next {
            found: Found::Nothing,
            rest,
            passed: at,
        });
    }
    match read_command(alloc, buffer, text) {
        Ok(Some(command)) => take_command(alloc, at, command, rest),
        Ok(None) => Err(ScriptErr::BadLine(at.lines)),
        Err(_) => Err(ScriptErr::NoMemory),
    }
}

// What the command of this line gives, with the text behind it.
fn take_command<'a>(
    alloc: Global,
    at: Progress,
    command: Command,
    text: &'a [u8],
) -> Result<Next<'a>, ScriptErr>
    requires fits { at.lines + length text.now < 2 ^ 32 }
    requires few { at.commands ≤ most_commands }
    ensures next { IfOk result (λ next. script_at at.commands at.lines (Some command) text.entry.now ≡
        found_before next.found (script_behind next.passed next.rest.now)) }
    ensures fewer { IfOk result (λ next. next.passed.lines + length next.rest.now ≤ at.lines + length text.entry.now) }
    ensures few { IfOk result (λ next. next.passed.commands ≤ most_commands) }
    ensures shorter { IfOk result (λ next. length next.rest.now ≤ length text.entry.now) }
    ensures refused { IfErr result (IsRefusal (script_at at.commands at.lines (Some command) text.entry.now)) }
{
    match command {
        Command::Activate(number) => take_deck(alloc, at, number, text),
        Command::Sync => take_line(at, Found::PhaseEnd, text),
        Command::Whole(request) => {
            let item = Item {
                line: at.lines,
                request,
            };
            take_line(at, Found::Asked(item), text)
        }
    }
}

// What a line gives that is a command by itself, with the text behind it.
fn take_line(at: Progress, found: Found, text: &[u8]) -> Result<Next<'_>, ScriptErr>
    requires few { at.commands ≤ most_commands }
    ensures next { IfOk result (λ next. if_few at.commands at.lines
        (found_before found (script_from false (at.commands + 1) (at.lines + 1) (lines_of text.entry.now))) ≡
        found_before next.found (script_behind next.passed next.rest.now)) }
    ensures fewer { IfOk result (λ next. next.passed.lines + length next.rest.now ≤ at.lines + length text.entry.now) }
    ensures few { IfOk result (λ next. next.passed.commands ≤ most_commands) }
    ensures shorter { IfOk result (λ next. length next.rest.now ≤ length text.entry.now) }
    ensures refused { IfErr result (IsRefusal (if_few at.commands at.lines
        (found_before found (script_from false (at.commands + 1) (at.lines + 1) (lines_of text.entry.now))))) }
{
    if at.commands >= MAX_COMMANDS {
        return Err(ScriptErr::TooManyLines(at.lines));
    }
    Ok(Next {
        found,
        rest: text,
        passed: Progress {
            commands: at.commands + 1,
            lines: at.lines,
        },
    })
}

// The activation of the deck whose block stands at the front of the text, behind the ACTIVATE of this line.
fn take_deck<'a>(
    alloc: Global,
    at: Progress,
    number: RequestNumber,
    text: &'a [u8],
) -> Result<Next<'a>, ScriptErr>
    requires fits { at.lines + length text.now < 2 ^ 32 }
    requires few { at.commands ≤ most_commands }
    ensures next { IfOk result (λ next. script_at at.commands at.lines (Some (Command.Activate number)) text.entry.now ≡
        found_before next.found (script_behind next.passed next.rest.now)) }
    ensures fewer { IfOk result (λ next. next.passed.lines + length next.rest.now ≤ at.lines + length text.entry.now) }
    ensures few { IfOk result (λ next. next.passed.commands ≤ most_commands) }
    ensures shorter { IfOk result (λ next. length next.rest.now ≤ length text.entry.now) }
    ensures refused { IfErr result
        (IsRefusal (script_at at.commands at.lines (Some (Command.Activate number)) text.entry.now)) }
{
    let Some(block) = deck_block(text) else {
        return Err(ScriptErr::OpenBlock(at.lines));
    };
    if at.commands >= MAX_COMMANDS {
        return Err(ScriptErr::TooManyLines(at.lines));
    }
    let Ok(deck) = shared_deck(alloc, block.deck) else {
        return Err(ScriptErr::NoMemory);
    };
    let request = Request {
        job: admin(),
        number,
        op: Op::Activate(deck),
    };
    Ok(Next {
        found: Found::Asked(Item {
            line: at.lines,
            request,
        }),
        rest: block.rest,
        passed: Progress {
            commands: at.commands + 1,
            lines: at.lines + block.lines,
        },
    })
}

// The bytes of a deck, which all copies of its request share.
fn shared_deck(alloc: Global, bytes: &[u8]) -> Result<DeckText, AllocError>
    ensures { IfOk result (λ deck. deck ≡ bytes.now) }
{
    Shared::new(alloc, Items::from_slice(alloc, bytes)?)
}
