//! The lines of a trace.
ghost use Rattle.std.specs.Prelude.{◌≡◌, ◌++◌, [], flat_map, IfOk, IsTrue, OnOk};
ghost use Rattle.sms_script.specs.TraceText.{kind_lines, more_lines, more_text, trace_lines, write_text, written_by};

use crate::pushing::push_word_and_blank;
use crate::text_lines::{TextLines, push_line};
use acs_tree::{Kind, Line, More, same_kind};
use desk_common::push_number;
use sms_construct::Trace;
use std::alloc::{AllocError, Global};

/// Puts the lines of a trace behind others: kind by kind what its routine wrote, and how much more it wrote.
pub fn push_trace(alloc: Global, lines: &mut TextLines, trace: &Trace) -> Result<(), AllocError>
    ensures { OnOk result (lines.new ≡ lines.old ++ trace_lines trace.now) }
{
    if is_silent(trace) {
        return Ok(());
    }
    push_kind(alloc, lines, Kind::DataClas, trace)?;
    push_kind(alloc, lines, Kind::StorClas, trace)?;
    push_kind(alloc, lines, Kind::MgmtClas, trace)?;
    push_kind(alloc, lines, Kind::StorGrp, trace)
}

// Whether no routine wrote a line.
#[tactic(auto, using(crate::proofs::TraceLemmas::silent))]
fn is_silent(trace: &Trace) -> bool
    ensures { IsTrue result → trace_lines trace.now ≡ [] }
{
    trace.lines.is_empty() && are_none(&trace.more)
}

// Whether no kind of routine wrote further lines.
fn are_none(more: &More) -> bool
    ensures { IsTrue result → more.now ≡ record { dataclas = 0; storclas = 0; mgmtclas = 0; storgrp = 0 } }
{
    more.dataclas == 0 && more.storclas == 0 && more.mgmtclas == 0 && more.storgrp == 0
}

fn push_kind(
    alloc: Global,
    lines: &mut TextLines,
    kind: Kind,
    trace: &Trace,
) -> Result<(), AllocError>
    ensures { OnOk result (lines.new ≡ lines.old ++ kind_lines kind trace.now) }
{
    push_written(alloc, lines, kind, trace.lines.as_slice())?;
    push_more(alloc, lines, kind, trace.more.of(kind))
}

fn push_written(
    alloc: Global,
    lines: &mut TextLines,
    kind: Kind,
    written: &[Line],
) -> Result<(), AllocError>
    ensures { OnOk result (lines.new ≡ lines.old ++ flat_map (written_by kind) written.now) }
{
    for line in written {
        push_line_of(alloc, lines, kind, line)?;
    }
    Ok(())
}

// The line, if a routine of this kind wrote it.
fn push_line_of(
    alloc: Global,
    lines: &mut TextLines,
    kind: Kind,
    line: &Line,
) -> Result<(), AllocError>
    ensures { OnOk result (lines.new ≡ lines.old ++ written_by kind line.now) }
{
    if same_kind(line.kind, kind) {
        push_line(lines, write_text(alloc, line)?)
    } else {
        Ok(())
    }
}

fn write_text(alloc: Global, line: &Line) -> Result<Vec<u8>, AllocError>
    ensures { IfOk result (λ text. text.items ≡ write_text line.now) }
{
    let mut text = Vec::from_slice(alloc, b"WRITE ")?;
    push_word_and_blank(&mut text, line.kind.name())?;
    text.extend_from_slice(line.text.bytes())?;
    Ok(text)
}

fn push_more(alloc: Global, lines: &mut TextLines, kind: Kind, count: u32) -> Result<(), AllocError>
    ensures { OnOk result (lines.new ≡ lines.old ++ more_lines kind count) }
{
    if count == 0 {
        return Ok(());
    }
    push_line(lines, more_text(alloc, kind, count)?)
}

fn more_text(alloc: Global, kind: Kind, count: u32) -> Result<Vec<u8>, AllocError>
    ensures { IfOk result (λ text. text.items ≡ more_text kind count) }
{
    let mut text = Vec::from_slice(alloc, b"MORE ")?;
    push_word_and_blank(&mut text, kind.name())?;
    push_number(&mut text, u64::from(count))?;
    Ok(text)
}
