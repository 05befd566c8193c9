//! The lines behind the first one of an answer to an ALLOC, straight behind a text.
ghost use Rattle.std.specs.Prelude.{◌≡◌, ◌++◌, flat_map, map, OnOk};
ghost use Rattle.sms_script.specs.AnswerText.{ended, granted_texts, indented};
ghost use Rattle.sms_script.specs.NameText.{class_text, extent_text};
ghost use Rattle.sms_script.specs.TraceText.{trace_lines};

use crate::further_text::{push_trace_lines, write_class, write_extent};
use crate::indenting::push_ended;
use crate::pushing::{ROOM, write_word};
use desk_common::Items;
use sms_construct::{DataSet, Extent, Trace};
use std::alloc::{AllocError, Global};

/// Puts the lines of a data set that was allocated and of what its routines wrote behind a text, each with LF behind
/// it.
#[tactic(auto, using(crate::proofs::IndentLemmas::granted_text))]
pub fn push_granted_text(
    alloc: Global,
    text: &mut Vec<u8>,
    set: &DataSet,
    trace: &Trace,
) -> Result<(), AllocError>
    ensures { OnOk result (text.new.items ≡ text.old.items
        ++ flat_map ended (map indented (granted_texts set.now trace.now))) }
{
    push_class_line(text, set)?;
    push_extent_lines(text, set.extents.as_slice())?;
    push_trace_text(alloc, text, trace)
}

fn push_class_line(text: &mut Vec<u8>, set: &DataSet) -> Result<(), AllocError>
    ensures { OnOk result (text.new.items ≡ text.old.items ++ ended (indented (class_text set.now))) }
{
    let mut room = [0u8; ROOM];
    room[ROOM - 1] = b'\n';
    let classes = write_class(set, &mut room, ROOM - 1);
    let start = write_word(b"  ", &mut room, classes);
    text.extend_from_slice(&room[start..])
}

fn push_extent_lines(text: &mut Vec<u8>, extents: &[Extent]) -> Result<(), AllocError>
    ensures { OnOk result (text.new.items ≡ text.old.items
        ++ flat_map ended (map indented (map extent_text extents.now))) }
{
    for extent in extents {
        push_extent_line(text, extent)?;
    }
    Ok(())
}

fn push_extent_line(text: &mut Vec<u8>, extent: &Extent) -> Result<(), AllocError>
    ensures { OnOk result (text.new.items ≡ text.old.items ++ ended (indented (extent_text extent.now))) }
{
    let mut room = [0u8; ROOM];
    room[ROOM - 1] = b'\n';
    let tracks = write_extent(extent, &mut room, ROOM - 1);
    let start = write_word(b"  ", &mut room, tracks);
    text.extend_from_slice(&room[start..])
}

fn push_trace_text(alloc: Global, text: &mut Vec<u8>, trace: &Trace) -> Result<(), AllocError>
    ensures { OnOk result (text.new.items ≡ text.old.items ++ flat_map ended (map indented (trace_lines trace.now))) }
{
    let mut lines = Items::new(alloc);
    push_trace_lines(alloc, &mut lines, trace)?;
    push_ended(text, lines.as_slice())
}
