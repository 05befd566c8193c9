// Statements, and what happens while they run.
ghost use Rattle.std.specs.Prelude.{◌<◌, length, map, IfOk, IfSome};
ghost use Rattle.std.specs.Option.{option_map};
ghost use Rattle.acs_tree.specs.Meaning.{in_turn, meaning, perhaps, writes};
ghost use Rattle.acs_tree.specs.Outcome.{exits};
ghost use Rattle.acs_tree.specs.Setting.{sets};
ghost use Rattle.acs_tree.specs.declared.kind.Kind.{Kind};
ghost use Rattle.acs_trace.specs.Story.{perhaps_told, story, tell_exit, tell_in_turn, tell_set};
ghost use Rattle.acs_trace.specs.Story.{tell_write};
ghost use Rattle.acs_trace.specs.Inner.Follows.{Follows, IsMet};

use crate::conditions::{condition, when};
use crate::event::Event;
use crate::leaves::{exit_code, line_of, set, shown};
use crate::log::Log;
use crate::scope::Scope;
use acs_tree::{Ending, Form, Kind, Operand, Ref, Seen, Stmt, Values, When};
use desk_common::Boxed;
use std::alloc::{AllocError, Global};

#[cycle(statements)]
fn statement(
    alloc: Global,
    log: &mut Log,
    kind: Kind,
    scope: &Scope<'_>,
    stmt: &Stmt,
    input: &Seen<'_>,
    values: &mut Values,
) -> Result<Ending, AllocError>
    ensures { IfOk result (λ ending. Follows (story kind scope.now stmt.now input.now values.old)
        (meaning kind scope.now stmt.now input.now values.old) log.old log.new ending values.new) }
{
    log.tell(Event::Ran(stmt.at))?;
    match &stmt.form {
        Form::Filt { .. } => Ok(Ending::Falls),
        Form::Put {
            target,
            values: operands,
        } => put(log, kind, target, operands.as_slice(), input, values),
        Form::If {
            cond,
            yes,
            otherwise,
        } => {
            if condition(log, scope, cond.get(), input, values)? {
                statement(alloc, log, kind, scope, yes.get(), input, values)
            } else {
                alternative(alloc, log, kind, scope, otherwise, input, values)
            }
        }
        Form::Pick {
            subject,
            whens,
            otherwise,
        } => match met(log, scope, subject, whens.as_slice(), input, values)? {
            Some(place) => {
                let when = &whens.as_slice()[place];
                statement(alloc, log, kind, scope, when.body.get(), input, values)
            }
            None => alternative(alloc, log, kind, scope, otherwise, input, values),
        },
        Form::Do(block) => in_turn(alloc, log, kind, scope, block.as_slice(), input, values),
        Form::Write(parts) => write(alloc, log, parts.as_slice(), input, values),
        Form::Exit { code } => exit(log, exit_code(code), input, values),
    }
}

/// Statements in their order, up to an EXIT.
#[cycle(statements)]
pub fn in_turn(
    alloc: Global,
    log: &mut Log,
    kind: Kind,
    scope: &Scope<'_>,
    block: &[Stmt],
    input: &Seen<'_>,
    values: &mut Values,
) -> Result<Ending, AllocError>
    ensures { IfOk result (λ ending.
        Follows (tell_in_turn (map (story kind scope.now) block.now) input.now values.old)
        (in_turn (map (meaning kind scope.now) block.now) input.now values.old) log.old log.new ending values.new) }
{
    for stmt in block {
        match statement(alloc, log, kind, scope, stmt, input, values)? {
            Ending::Falls => (),
            Ending::Exit(code) => return Ok(Ending::Exit(code)),
        }
    }
    Ok(Ending::Falls)
}

// What is done otherwise, if anything.
#[cycle(statements)]
fn alternative(
    alloc: Global,
    log: &mut Log,
    kind: Kind,
    scope: &Scope<'_>,
    otherwise: &Option<Boxed<Stmt>>,
    input: &Seen<'_>,
    values: &mut Values,
) -> Result<Ending, AllocError>
    ensures { IfOk result (λ ending.
        Follows (perhaps_told (option_map (story kind scope.now) otherwise.now) input.now values.old)
        (perhaps (option_map (meaning kind scope.now) otherwise.now) input.now values.old)
        log.old log.new ending values.new) }
{
    match otherwise {
        None => Ok(Ending::Falls),
        Some(stmt) => statement(alloc, log, kind, scope, stmt.get(), input, values),
    }
}

// The place of the first WHEN that is met, which is taken.
fn met(
    log: &mut Log,
    scope: &Scope<'_>,
    subject: &Option<Ref>,
    whens: &[When],
    input: &Seen<'_>,
    values: &Values,
) -> Result<Option<usize>, AllocError>
    ensures within { IfOk result (λ place. IfSome place (λ place. place < length whens.now)) }
    ensures met { IfOk result (λ place. (kind : Kind) →
        IsMet kind scope.now subject.now whens.now input.now values.now log.old log.new place) }
{
    for place in 0..whens.len() {
        let arm = &whens[place];
        if when(log, scope, subject, &arm.test, input, values)? {
            log.tell(Event::Taken(arm.at))?;
            return Ok(Some(place));
        }
    }
    Ok(None)
}

fn put(
    log: &mut Log,
    kind: Kind,
    target: &Ref,
    operands: &[Operand],
    input: &Seen<'_>,
    values: &mut Values,
) -> Result<Ending, AllocError>
    ensures { IfOk result (λ ending. Follows (tell_set kind target.now operands.now input.now values.old)
        (sets kind target.now operands.now input.now values.old) log.old log.new ending values.new) }
{
    set(kind, target, operands, input, values);
    log.tell(Event::Set {
        target: target.at,
        value: shown(target, input, values),
    })?;
    Ok(Ending::Falls)
}

fn write(
    alloc: Global,
    log: &mut Log,
    parts: &[Operand],
    input: &Seen<'_>,
    values: &Values,
) -> Result<Ending, AllocError>
    ensures { IfOk result (λ ending. Follows (tell_write parts.now input.now values.now)
        (writes parts.now input.now values.now) log.old log.new ending values.now) }
{
    log.tell(Event::Wrote(line_of(alloc, parts, input, values)?))?;
    Ok(Ending::Falls)
}

fn exit(log: &mut Log, code: u16, input: &Seen<'_>, values: &Values) -> Result<Ending, AllocError>
    ensures { IfOk result (λ ending. Follows (tell_exit code input.now values.now) (exits code values.now)
        log.old log.new ending values.now) }
{
    log.tell(Event::Exited(code))?;
    Ok(Ending::Exit(code))
}
