//! What a classification comes to, as text.
ghost use Rattle.std.specs.Prelude.{◌≡◌, ◌++◌, ◌∷◌, [], OnOk, flat_map};
ghost use Rattle.desk_common.specs.Bytes.{comma};
ghost use Rattle.acs_tree.specs.Writing.{listed};
ghost use Rattle.sms_script.specs.TraceText.{trace_lines};
ghost use Rattle.sms_simulation.specs.OutcomeText.{behind, classes_text, classified_text, outcome_line};
ghost use Rattle.sms_simulation.specs.OutcomeText.{outcome_text};

use acs_tree::Values;
use desk_common::{Items, push_number};
use dsn_mask::Name;
use sms_classes::Classified;
use sms_construct::{Request, Stop, Trace};
use sms_script::{push_number_and_blank, push_trace, push_word_and_blank, value_bytes};
use std::alloc::{AllocError, Global};

/// Puts what the classification of a request comes to behind a text, and what its routines wrote.
pub fn push_classified(
    alloc: Global,
    text: &mut Vec<u8>,
    line: u32,
    request: &Request,
    classified: &Classified,
    trace: &Trace,
) -> Result<(), AllocError>
    ensures { OnOk result (text.new.items ≡ text.old.items ++ classified_text line request.now.job request.now.number
        classified.now.stop classified.now.values trace.now) }
{
    push_line(text, line, request, classified)?;
    text.extend_from_slice(b"\n")?;
    push_written(alloc, text, b"  ", trace)
}

fn push_line(
    text: &mut Vec<u8>,
    line: u32,
    request: &Request,
    classified: &Classified,
) -> Result<(), AllocError>
    ensures { OnOk result (text.new.items ≡ text.old.items ++ outcome_line line request.now.job request.now.number
        classified.now.stop classified.now.values) }
{
    push_number_and_blank(text, u64::from(line))?;
    push_word_and_blank(text, request.job.bytes())?;
    push_number_and_blank(text, u64::from(request.number.get()))?;
    push_outcome(text, classified.stop, &classified.values)
}

/// Puts the outcome behind a text: how a classification ends, and where it is done its classes and storage groups
/// (docs/manual/tool.md, "Simulating a script").
pub fn push_outcome(text: &mut Vec<u8>, stop: Stop, values: &Values) -> Result<(), AllocError>
    ensures { OnOk result (text.new.items ≡ text.old.items ++ outcome_text stop values.now) }
{
    match stop {
        Stop::Done => push_classes(text, values),
        Stop::Unmanaged => text.extend_from_slice(b"UNMANAGED"),
        Stop::Exit { kind, code } => {
            push_word_and_blank(text, b"EXIT")?;
            push_word_and_blank(text, kind.name())?;
            push_number(text, u64::from(code))
        }
        Stop::Unknown { kind, name } => {
            push_word_and_blank(text, b"UNKNOWN")?;
            push_word_and_blank(text, kind.name())?;
            text.extend_from_slice(value_bytes(&name))
        }
        Stop::NoGroup => text.extend_from_slice(b"NO GROUP"),
    }
}

fn push_classes(text: &mut Vec<u8>, values: &Values) -> Result<(), AllocError>
    ensures { OnOk result (text.new.items ≡ text.old.items ++ classes_text values.now) }
{
    push_word_and_blank(text, b"CLASSES")?;
    push_word_and_blank(text, value_bytes(&values.dataclas))?;
    push_word_and_blank(text, value_bytes(&values.storclas))?;
    push_word_and_blank(text, value_bytes(&values.mgmtclas))?;
    push_groups(text, values.groups.as_slice())
}

fn push_groups(text: &mut Vec<u8>, groups: &[Name]) -> Result<(), AllocError>
    ensures { OnOk result (text.new.items ≡ text.old.items ++ listed groups.now) }
{
    match groups {
        [] => Ok(()),
        [first, others @ ..] => push_names(text, first, others),
    }
}

// The names with commas between.
#[tactic(auto, using(crate::proofs::GroupLemmas::groups_parts))]
fn push_names(text: &mut Vec<u8>, first: &Name, others: &[Name]) -> Result<(), AllocError>
    ensures { OnOk result (text.new.items ≡ text.old.items ++ listed (first.now ∷ others.now)) }
{
    text.extend_from_slice(first.bytes())?;
    push_others(text, others)?;
    Ok(())
}

// The names, with a comma before each.
fn push_others(text: &mut Vec<u8>, groups: &[Name]) -> Result<(), AllocError>
    ensures { OnOk result (text.new.items ≡ text.old.items ++ flat_map (λ group. comma ∷ group) groups.now) }
{
    for group in groups {
        text.extend_from_slice(b",")?;
        text.extend_from_slice(group.bytes())?;
    }
    Ok(())
}

/// Puts the lines of a trace behind a text, each with this front before it and LF behind it.
pub fn push_written(
    alloc: Global,
    text: &mut Vec<u8>,
    front: &[u8],
    trace: &Trace,
) -> Result<(), AllocError>
    ensures { OnOk result (text.new.items ≡ text.old.items ++ flat_map (behind front.now) (trace_lines trace.now)) }
{
    let mut lines = Items::new(alloc);
    push_trace(alloc, &mut lines, trace)?;
    push_lines(text, front, lines.as_slice())
}

fn push_lines(text: &mut Vec<u8>, front: &[u8], lines: &[Items<u8>]) -> Result<(), AllocError>
    ensures { OnOk result (text.new.items ≡ text.old.items ++ flat_map (behind front.now) lines.now) }
{
    for line in lines {
        push_behind(text, front, line.as_slice())?;
    }
    Ok(())
}

fn push_behind(text: &mut Vec<u8>, front: &[u8], line: &[u8]) -> Result<(), AllocError>
    ensures { OnOk result (text.new.items ≡ text.old.items ++ behind front.now line.now) }
{
    text.extend_from_slice(front)?;
    text.extend_from_slice(line)?;
    text.extend_from_slice(b"\n")
}
