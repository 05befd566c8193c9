//! What is told of the events of a run.
ghost use Rattle.std.specs.Prelude.{◌≡◌, IfOk};
ghost use Rattle.acs_telling.specs.Telling.{comparison_text};
ghost use Rattle.flat_records.specs.declared.field.FieldValue.{FieldValue as Value};
ghost use Rattle.routine_records.specs.EventRecords.{told_at, told_event, told_outcome, told_values, told_without};
ghost use Rattle.sms_simulation.specs.OutcomeText.{outcome_text};

use crate::happening::Happening;
use crate::told::Told;
use acs_telling::{Source, push_comparison};
use acs_trace::Event;
use acs_tree::{Compare, Values};
use desk_common::Items;
use flat_records::FieldValue;
use sms_construct::Stop;
use sms_explain::push_values;
use sms_simulation::push_outcome;
use std::alloc::{AllocError, Global};

/// What is told of an event in the routine of this source.
pub fn told_event(alloc: Global, source: &Source, event: &Event) -> Result<Told, AllocError>
    ensures { IfOk result (λ told. told ≡ told_event source.now event.now) }
{
    match event {
        Event::Ran(at) => told_at(
            alloc,
            source,
            *at,
            Happening::Statement,
            FieldValue::Missing,
        ),
        Event::Compared {
            left,
            op,
            right,
            value,
            holds,
        } => Ok(Told {
            event: Happening::Comparison,
            place: Some(source.spot_at(*right as usize).place),
            text: comparison(alloc, source, *left, *op, *right)?,
            holds: FieldValue::Truth(*holds),
            value: text_value(alloc, value.bytes())?,
        }),
        Event::Taken(at) => told_at(alloc, source, *at, Happening::When, FieldValue::Missing),
        Event::Set { target, value } => {
            let value = text_value(alloc, value.bytes())?;
            told_at(alloc, source, *target, Happening::Set, value)
        }
        Event::Wrote(line) => {
            let value = text_value(alloc, line.bytes())?;
            Ok(told_without(Happening::Wrote, value))
        }
        Event::Exited(code) => {
            let value = FieldValue::Count(u64::from(*code));
            Ok(told_without(Happening::Exited, value))
        }
    }
}

// What happens at the token with this number.
fn told_at(
    alloc: Global,
    source: &Source,
    at: u32,
    event: Happening,
    value: FieldValue,
) -> Result<Told, AllocError>
    ensures { IfOk result (λ told. told ≡ told_at source.now at event value) }
{
    Ok(Told {
        event,
        place: Some(source.spot_at(at as usize).place),
        text: text_value(alloc, source.word_at(at as usize))?,
        holds: FieldValue::Missing,
        value,
    })
}

// What happens at no token.
fn told_without(event: Happening, value: FieldValue) -> Told
    ensures { result ≡ told_without event value }
{
    Told {
        event,
        place: None,
        text: FieldValue::Missing,
        holds: FieldValue::Missing,
        value,
    }
}

/// What is told of the variables.
pub fn told_values(alloc: Global, event: Happening, values: &Values) -> Result<Told, AllocError>
    ensures { IfOk result (λ told. told ≡ told_values event values.now) }
{
    let mut text = Vec::new(alloc);
    push_values(&mut text, values)?;
    Ok(told_without(event, FieldValue::Text(Items::from_vec(text))))
}

/// What is told of what a classification comes to.
pub fn told_outcome(alloc: Global, stop: Stop, values: &Values) -> Result<Told, AllocError>
    ensures { IfOk result (λ told. told ≡ told_outcome stop values.now) }
{
    let value = outcome_value(alloc, stop, values)?;
    Ok(told_without(Happening::Outcome, value))
}

fn outcome_value(alloc: Global, stop: Stop, values: &Values) -> Result<FieldValue, AllocError>
    ensures { IfOk result (λ value. value ≡ Value.Text (outcome_text stop values.now)) }
{
    let mut text = Vec::new(alloc);
    push_outcome(&mut text, stop, values)?;
    Ok(FieldValue::Text(Items::from_vec(text)))
}

fn comparison(
    alloc: Global,
    source: &Source,
    left: u32,
    op: Compare,
    right: u32,
) -> Result<FieldValue, AllocError>
    ensures { IfOk result (λ value. value ≡ Value.Text (comparison_text source.now left op right)) }
{
    let mut text = Vec::new(alloc);
    push_comparison(&mut text, source, left, op, right)?;
    Ok(FieldValue::Text(Items::from_vec(text)))
}

/// A text, as a field holds it.
pub fn text_value(alloc: Global, bytes: &[u8]) -> Result<FieldValue, AllocError>
    ensures { IfOk result (λ value. value ≡ Value.Text bytes.now) }
{
    let text = Items::from_slice(alloc, bytes)?;
    Ok(FieldValue::Text(text))
}
