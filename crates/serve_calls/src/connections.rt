//! The text of connections that were served.
ghost use Rattle.std.specs.Prelude.{◌≡◌, ◌++◌, length, flat_map, IfOk, IfSome, OnOk};
ghost use Rattle.sms_script.specs.AnswerText.{end_text};
ghost use Rattle.serve_calls.specs.ServedText.{conn_line, end_words, served_text, visit_lines, worker_lines};

use desk_common::push_number;
use http_talk::End;
use serve_door::{Visit, Visits};
use sms_script::push_number_and_blank;
use std::alloc::{AllocError, Global};

/// A line for each connection, by worker and in their order, and the last line with the number of entries of the desk
/// and that of the connections (docs/manual/http.md, "The program").
pub fn served_text(alloc: Global, workers: &[Visits], entries: u64) -> Result<Vec<u8>, AllocError>
    ensures { IfOk result (λ text. text.items ≡ served_text workers.now entries) }
{
    let Some(connections) = count_visits(workers) else {
        return Err(AllocError);
    };
    let mut text = Vec::new(alloc);
    push_workers(&mut text, workers)?;
    push_end_line(&mut text, entries, connections)?;
    Ok(text)
}

// How many visits there are; `None` where no number of the machine tells it.
fn count_visits(workers: &[Visits]) -> Option<u64>
    ensures { IfSome result (λ count. count ≡ length (flat_map (λ visits. visits) workers.now)) }
{
    let mut count = 0u64;
    for visits in workers {
        count = count.checked_add(visits.len() as u64)?;
    }
    Some(count)
}

fn push_workers(text: &mut Vec<u8>, workers: &[Visits]) -> Result<(), AllocError>
    ensures { OnOk result (text.new.items ≡ text.old.items ++ worker_lines 1 workers.now) }
{
    for (at, visits) in workers.iter().enumerate() {
        push_visits(text, at as u64 + 1, visits.as_slice())?;
    }
    Ok(())
}

fn push_visits(text: &mut Vec<u8>, worker: u64, visits: &[Visit]) -> Result<(), AllocError>
    ensures { OnOk result (text.new.items ≡ text.old.items ++ visit_lines worker 1 visits.now) }
{
    for (at, visit) in visits.iter().enumerate() {
        push_conn(text, worker, at as u64 + 1, visit.end)?;
    }
    Ok(())
}

fn push_conn(text: &mut Vec<u8>, worker: u64, index: u64, end: End) -> Result<(), AllocError>
    ensures { OnOk result (text.new.items ≡ text.old.items ++ conn_line worker index end) }
{
    text.extend_from_slice(b"CONN ")?;
    push_number_and_blank(text, worker)?;
    push_number_and_blank(text, index)?;
    push_end(text, end)?;
    text.extend_from_slice(b"\n")
}

fn push_end(text: &mut Vec<u8>, end: End) -> Result<(), AllocError>
    ensures { OnOk result (text.new.items ≡ text.old.items ++ end_words end) }
{
    match end {
        End::Closed { cut: false } => text.extend_from_slice(b"CLOSED"),
        End::Closed { cut: true } => text.extend_from_slice(b"CUT"),
        End::ReadFault => text.extend_from_slice(b"READ FAULT"),
        End::WriteFault => text.extend_from_slice(b"WRITE FAULT"),
        End::Refused(status) => {
            text.extend_from_slice(b"REFUSED ")?;
            push_number(text, u64::from(status))
        }
        End::Turns => text.extend_from_slice(b"TURNS"),
        End::NoMemory => text.extend_from_slice(b"MEMORY"),
    }
}

fn push_end_line(text: &mut Vec<u8>, entries: u64, connections: u64) -> Result<(), AllocError>
    ensures { OnOk result (text.new.items ≡ text.old.items ++ end_text entries connections) }
{
    text.extend_from_slice(b"END ")?;
    push_number_and_blank(text, entries)?;
    push_number(text, connections)?;
    text.extend_from_slice(b"\n")
}
