//! What a classification comes to, as members of an object of JSON.
ghost use Rattle.std.specs.Prelude.{◌≡◌, ◌++◌, IfOk, OnOk, codes, false};
ghost use Rattle.json.specs.Print.{quoted};
ghost use Rattle.serde_json.specs.Written.{compact_text, items_text, members_text};
ghost use Rattle.sms_simulation.specs.OutcomeText.{outcome_text};
ghost use Rattle.sms_outcomes.specs.Outcomes.{class_value, classes_made, side_members, text_values, written_lines};
ghost use Rattle.sms_outcomes.specs.Inner.Pieces.{side_piece};

use acs_tree::Slate;
use desk_common::Items;
use dsn_mask::{Name, Short};
use json_text::push_quoted;
use sms_classes::Classified;
use sms_construct::Trace;
use sms_script::push_trace;
use sms_simulation::push_outcome;
use std::alloc::{AllocError, Global};

/// Puts what a classification comes to behind a text, as the last members of an object, and its closing brace.
pub fn push_members(
    alloc: Global,
    text: &mut Vec<u8>,
    made: &Classified,
    written: &Slate,
) -> Result<(), AllocError>
    ensures { OnOk result (text.new.items ≡ text.old.items ++
        members_text false (side_members (classes_made made.now written.now))) }
{
    push_parts(alloc, text, made, written)?;
    Ok(())
}

fn push_parts(
    alloc: Global,
    text: &mut Vec<u8>,
    made: &Classified,
    written: &Slate,
) -> Result<(), AllocError>
    ensures { OnOk result (text.new.items ≡ text.old.items ++ side_piece (classes_made made.now written.now)) }
{
    push_outcome_of(alloc, text, made)?;
    push_class(text, b",\"dataclas\":", &made.values.dataclas)?;
    push_class(text, b",\"storclas\":", &made.values.storclas)?;
    push_class(text, b",\"mgmtclas\":", &made.values.mgmtclas)?;
    push_groups(text, made.values.groups.as_slice())?;
    push_written(alloc, text, written)?;
    text.push(b'}')?;
    Ok(())
}

fn push_outcome_of(alloc: Global, text: &mut Vec<u8>, made: &Classified) -> Result<(), AllocError>
    ensures { OnOk result (text.new.items ≡ text.old.items ++ (codes "\"outcome\":" ++
        quoted (outcome_text made.now.stop made.now.values))) }
{
    let mut outcome = Vec::new(alloc);
    push_outcome(&mut outcome, made.stop, &made.values)?;
    push_text(text, b"\"outcome\":", &outcome)
}

/// Puts what stands before a text, and the text as a string.
pub fn push_text(text: &mut Vec<u8>, front: &[u8], value: &[u8]) -> Result<(), AllocError>
    ensures { OnOk result (text.new.items ≡ text.old.items ++ (front.now ++ quoted value.now)) }
{
    text.extend_from_slice(front)?;
    push_quoted(text, value)?;
    Ok(())
}

// Puts what stands before a class, and the class or null.
fn push_class(text: &mut Vec<u8>, front: &[u8], class: &Short) -> Result<(), AllocError>
    ensures { OnOk result (text.new.items ≡ text.old.items ++ (front.now ++ compact_text (class_value class.now))) }
{
    text.extend_from_slice(front)?;
    push_class_or_null(text, class)?;
    Ok(())
}

fn push_class_or_null(text: &mut Vec<u8>, class: &Short) -> Result<(), AllocError>
    ensures { OnOk result (text.new.items ≡ text.old.items ++ compact_text (class_value class.now)) }
{
    match class.bytes() {
        [] => text.extend_from_slice(b"null"),
        bytes => push_quoted(text, bytes),
    }
}

fn push_groups(text: &mut Vec<u8>, groups: &[Name]) -> Result<(), AllocError>
    ensures { OnOk result (text.new.items ≡ text.old.items ++ (codes ",\"groups\":[" ++
        items_text false (text_values groups.now))) }
{
    text.extend_from_slice(b",\"groups\":[")?;
    push_names(text, groups)?;
    Ok(())
}

// Puts names behind a text, with commas between them, and the closing bracket.
fn push_names(text: &mut Vec<u8>, names: &[Name]) -> Result<(), AllocError>
    ensures { OnOk result (text.new.items ≡ text.old.items ++ items_text false (text_values names.entry.now)) }
{
    let mut later = false;
    let mut rest = names;
    while let [name, others @ ..] = rest {
        if later {
            text.push(b',')?;
        }
        push_quoted(text, name.bytes())?;
        later = true;
        rest = others;
    }
    text.push(b']')?;
    Ok(())
}

fn push_written(alloc: Global, text: &mut Vec<u8>, written: &Slate) -> Result<(), AllocError>
    ensures { OnOk result (text.new.items ≡ text.old.items ++ (codes ",\"written\":[" ++
        items_text false (text_values (written_lines written.now)))) }
{
    let lines = lines_of(alloc, written)?;
    push_lines(text, lines.as_slice())?;
    Ok(())
}

// The lines that the routines wrote, as they are told.
fn lines_of(alloc: Global, written: &Slate) -> Result<Items<Items<u8>>, AllocError>
    ensures { IfOk result (λ lines. lines ≡ written_lines written.now) }
{
    let trace = Trace::of(alloc, written)?;
    let mut lines = Items::new(alloc);
    push_trace(alloc, &mut lines, &trace)?;
    Ok(lines)
}

fn push_lines(text: &mut Vec<u8>, lines: &[Items<u8>]) -> Result<(), AllocError>
    ensures { OnOk result (text.new.items ≡ text.old.items ++ (codes ",\"written\":[" ++
        items_text false (text_values lines.now))) }
{
    text.extend_from_slice(b",\"written\":[")?;
    push_texts(text, lines)?;
    Ok(())
}

// Puts texts behind a text, with commas between them, and the closing bracket.
fn push_texts(text: &mut Vec<u8>, texts: &[Items<u8>]) -> Result<(), AllocError>
    ensures { OnOk result (text.new.items ≡ text.old.items ++ items_text false (text_values texts.entry.now)) }
{
    let mut later = false;
    let mut rest = texts;
    while let [one, others @ ..] = rest {
        if later {
            text.push(b',')?;
        }
        push_quoted(text, one.as_slice())?;
        later = true;
        rest = others;
    }
    text.push(b']')?;
    Ok(())
}
