//! Events as text.
ghost use Rattle.std.specs.Prelude.{◌≡◌, ◌++◌, OnOk};
ghost use Rattle.acs_telling.specs.Telling.{comparison_text, event_line, event_text, events_text, found_text};
ghost use Rattle.acs_trace.specs.declared.event.Event.TheVariants.{Set};

use crate::source::Source;
use crate::words::{compare_word, push_front, push_operand, push_quoted, push_word, truth_word};
use acs_trace::Event;
use acs_tree::Compare;
use desk_common::push_number;
use std::alloc::AllocError;

/// Puts what happened in a run of the routine of this source behind a text, a line each.
pub fn push_events(text: &mut Vec<u8>, source: &Source, events: &[Event]) -> Result<(), AllocError>
    ensures { OnOk result (text.new.items ≡ text.old.items ++ events_text source.now events.now) }
{
    for event in events {
        push_event(text, source, event)?;
    }
    Ok(())
}

fn push_event(text: &mut Vec<u8>, source: &Source, event: &Event) -> Result<(), AllocError>
    ensures { OnOk result (text.new.items ≡ text.old.items ++ event_text source.now event.now) }
{
    push_line(text, source, event)?;
    text.extend_from_slice(b"\n")
}

fn push_line(text: &mut Vec<u8>, source: &Source, event: &Event) -> Result<(), AllocError>
    ensures { OnOk result (text.new.items ≡ text.old.items ++ event_line source.now event.now) }
{
    match event {
        Event::Ran(at) => push_begun(text, source, *at),
        Event::Compared {
            left,
            op,
            right,
            value,
            holds,
        } => {
            push_front(text, source, *right)?;
            push_comparison(text, source, *left, *op, *right)?;
            push_found(text, value.bytes(), *holds)
        }
        Event::Taken(at) => {
            push_begun(text, source, *at)?;
            text.extend_from_slice(b" TAKEN")
        }
        Event::Set { target, value } => push_set(text, source, *target, value.bytes()),
        Event::Wrote(line) => {
            text.extend_from_slice(b"  WROTE ")?;
            push_quoted(text, line.bytes())
        }
        Event::Exited(code) => {
            text.extend_from_slice(b"  EXITED ")?;
            push_number(text, u64::from(*code))
        }
    }
}

/// Puts the token with this number, at its place, behind a text.
pub fn push_begun(text: &mut Vec<u8>, source: &Source, at: u32) -> Result<(), AllocError>
    ensures { OnOk result (text.new.items ≡ text.old.items ++ event_line source.now (Event.Ran at)) }
{
    push_front(text, source, at)?;
    push_word(text, source, at as usize)
}

fn push_set(
    text: &mut Vec<u8>,
    source: &Source,
    target: u32,
    value: &[u8],
) -> Result<(), AllocError>
    ensures { OnOk result (text.new.items ≡ text.old.items ++ event_line source.now (Set target value.now)) }
{
    push_front(text, source, target)?;
    push_operand(text, source, target)?;
    text.extend_from_slice(b" = ")?;
    push_quoted(text, value)
}

/// Puts the comparison of what begins at two tokens behind a text.
pub fn push_comparison(
    text: &mut Vec<u8>,
    source: &Source,
    left: u32,
    op: Compare,
    right: u32,
) -> Result<(), AllocError>
    ensures { OnOk result (text.new.items ≡ text.old.items ++ comparison_text source.now left op right) }
{
    push_operand(text, source, left)?;
    text.extend_from_slice(b" ")?;
    text.extend_from_slice(compare_word(op))?;
    text.extend_from_slice(b" ")?;
    push_operand(text, source, right)
}

// Whether a comparison held, and the value that was compared.
fn push_found(text: &mut Vec<u8>, value: &[u8], holds: bool) -> Result<(), AllocError>
    ensures { OnOk result (text.new.items ≡ text.old.items ++ found_text holds value.now) }
{
    text.extend_from_slice(b" ")?;
    text.extend_from_slice(truth_word(holds))?;
    text.extend_from_slice(b" ")?;
    push_quoted(text, value)
}
