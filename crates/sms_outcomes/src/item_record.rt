// The record of an allocation.
ghost use Rattle.std.specs.Prelude.{◌≡◌, ◌++◌, IfOk, OnOk, decimal};
ghost use Rattle.csv.specs.Writing.{default_writer, row_text};
ghost use Rattle.serde_json.specs.Written.{compact_text};
ghost use Rattle.sms_simulation.specs.OutcomeText.{outcome_text};
ghost use Rattle.sms_outcomes.specs.Inner.Pieces.{head_piece};
ghost use Rattle.sms_outcomes.specs.ItemRecords.{front_in, item_fields, item_header, item_value, record_in};
ghost use Rattle.sms_outcomes.specs.Outcomes.{classes_made};

use crate::members::{push_members, push_text};
use crate::outcome_field::outcome_text;
use acs_tree::Slate;
use desk_common::push_number;
use flat_records::{RecordForm, record_text};
use sms_classes::Classified;
use sms_script::Item;
use std::alloc::{AllocError, Global};

const HEADER: [&[u8]; 4] = [b"line", b"job", b"number", b"outcome"];

/// What stands before the records.
pub fn front_text(alloc: Global, form: RecordForm) -> Result<Vec<u8>, AllocError>
    ensures { IfOk result (λ text. text.items ≡ front_in form) }
{
    match form {
        RecordForm::Csv => header_text(alloc),
        RecordForm::Json => Ok(Vec::new(alloc)),
    }
}

fn header_text(alloc: Global) -> Result<Vec<u8>, AllocError>
    ensures { IfOk result (λ text. text.items ≡ row_text default_writer item_header) }
{
    record_text(alloc, &HEADER)
}

/// Puts the record of the ALLOC of an item behind a text.
pub fn push_record(
    alloc: Global,
    text: &mut Vec<u8>,
    form: RecordForm,
    item: &Item,
    made: &Classified,
    written: &Slate,
) -> Result<(), AllocError>
    ensures { OnOk result (text.new.items ≡ text.old.items ++
        record_in form item.now (classes_made made.now written.now)) }
{
    match form {
        RecordForm::Csv => push_fields(alloc, text, item, made),
        RecordForm::Json => push_line(alloc, text, item, made, written),
    }
}

fn push_fields(
    alloc: Global,
    text: &mut Vec<u8>,
    item: &Item,
    made: &Classified,
) -> Result<(), AllocError>
    ensures { OnOk result (text.new.items ≡ text.old.items ++
        row_text default_writer (item_fields item.now (outcome_text made.now.stop made.now.values))) }
{
    let line = number_text(alloc, item.line)?;
    let number = number_text(alloc, item.request.number.get())?;
    let outcome = outcome_text(alloc, made)?;
    let record = record_text(alloc, &[&line, item.request.job.bytes(), &number, &outcome])?;
    text.extend_from_slice(&record)
}

fn number_text(alloc: Global, number: u32) -> Result<Vec<u8>, AllocError>
    ensures { IfOk result (λ text. text.items ≡ decimal number) }
{
    let mut text = Vec::new(alloc);
    push_number(&mut text, u64::from(number))?;
    Ok(text)
}

fn push_line(
    alloc: Global,
    text: &mut Vec<u8>,
    item: &Item,
    made: &Classified,
    written: &Slate,
) -> Result<(), AllocError>
    ensures { OnOk result (text.new.items ≡ text.old.items ++
        record_in RecordForm.Json item.now (classes_made made.now written.now)) }
{
    push_value(alloc, text, item, made, written)?;
    text.push(b'\n')?;
    Ok(())
}

fn push_value(
    alloc: Global,
    text: &mut Vec<u8>,
    item: &Item,
    made: &Classified,
    written: &Slate,
) -> Result<(), AllocError>
    ensures { OnOk result (text.new.items ≡ text.old.items ++
        compact_text (item_value item.now (classes_made made.now written.now))) }
{
    push_head(text, item)?;
    push_members(alloc, text, made, written)?;
    Ok(())
}

fn push_head(text: &mut Vec<u8>, item: &Item) -> Result<(), AllocError>
    ensures { OnOk result (text.new.items ≡ text.old.items ++ head_piece item.now) }
{
    text.extend_from_slice(b"{\"line\":")?;
    push_number(text, u64::from(item.line))?;
    push_text(text, b",\"job\":", item.request.job.bytes())?;
    text.extend_from_slice(b",\"number\":")?;
    push_number(text, u64::from(item.request.number.get()))?;
    text.push(b',')?;
    Ok(())
}
