//! The lines behind the first one of an answer.
ghost use Rattle.std.specs.Prelude.{◌≡◌, ◌≤◌, ◌+◌, ◌++◌, drop, map, IfOk, OnOk};
ghost use Rattle.sms_script.specs.AnswerText.{further_lines, granted_texts, indented, shown_texts, used_text};
ghost use Rattle.sms_script.specs.AnswerText.{view_texts};
ghost use Rattle.sms_script.specs.NameText.{class_text, extent_text};
ghost use Rattle.sms_script.specs.TraceText.{trace_lines};
ghost use Rattle.sms_script.specs.Inner.Rooms.{class_room, extent_room, line_room};

use crate::indenting::push_indented;
use crate::pushing::{
    ROOM, name_bytes, write_number, write_number_and_blank, write_word, write_word_and_blank,
};
use crate::text_lines::{TextLines, empty_line, push_line};
use crate::trace_text::push_trace;
use desk_common::{Items, push_number};
use sms_construct::{DataSet, Extent, Reply, Trace, View};
use std::alloc::{AllocError, Global};

/// Puts the lines behind the first one of a reply behind others.
pub fn push_further(alloc: Global, lines: &mut TextLines, reply: &Reply) -> Result<(), AllocError>
    ensures { OnOk result (lines.new ≡ lines.old ++ further_lines reply.now) }
{
    match reply {
        Reply::Granted { set, trace } => push_granted(alloc, lines, set.get(), trace.get()),
        Reply::Extended { added } => push_extents(alloc, lines, added.get().as_slice()),
        Reply::Shown(view) => push_view_lines(alloc, lines, view),
        Reply::NotManaged { trace } => push_trace_lines(alloc, lines, trace.get()),
        Reply::Exit { trace, .. } => push_trace_lines(alloc, lines, trace.get()),
        Reply::UnknownClass { trace, .. } => push_trace_lines(alloc, lines, trace.get()),
        Reply::NoQuantity { trace } => push_trace_lines(alloc, lines, trace.get()),
        Reply::NoGroup { trace } => push_trace_lines(alloc, lines, trace.get()),
        Reply::NoVolume { trace } => push_trace_lines(alloc, lines, trace.get()),
        Reply::Deleted { .. }
        | Reply::Activated { .. }
        | Reply::Varied { .. }
        | Reply::Purged { .. }
        | Reply::Noted
        | Reply::Released { .. }
        | Reply::Reused { .. }
        | Reply::Below { .. }
        | Reply::NoConfig
        | Reply::NameInUse
        | Reply::NotFound
        | Reply::NoExtend(_)
        | Reply::Deck(_)
        | Reply::VolumeInUse(_)
        | Reply::UnknownName
        | Reply::JournalFull
        | Reply::PastGrant { .. }
        | Reply::KeeperFault
        | Reply::Memory => Ok(()),
    }
}

// The lines of a data set that was allocated, and of what its routines wrote.
#[tactic(auto, using(crate::proofs::IndentLemmas::granted_lines))]
fn push_granted(
    alloc: Global,
    lines: &mut TextLines,
    set: &DataSet,
    trace: &Trace,
) -> Result<(), AllocError>
    ensures { OnOk result (lines.new ≡ lines.old ++ map indented (granted_texts set.now trace.now)) }
{
    push_line(lines, class_line(alloc, set)?)?;
    push_extents(alloc, lines, set.extents.as_slice())?;
    push_trace_lines(alloc, lines, trace)
}

/// Puts the lines of what routines wrote behind others.
pub fn push_trace_lines(
    alloc: Global,
    lines: &mut TextLines,
    trace: &Trace,
) -> Result<(), AllocError>
    ensures { OnOk result (lines.new ≡ lines.old ++ map indented (trace_lines trace.now)) }
{
    let mut texts = Items::new(alloc);
    push_trace(alloc, &mut texts, trace)?;
    push_indented(alloc, lines, texts.as_slice())
}

/// Puts the lines behind the first one of a view behind others.
pub fn push_view_lines(alloc: Global, lines: &mut TextLines, view: &View) -> Result<(), AllocError>
    ensures { OnOk result (lines.new ≡ lines.old ++ map indented (view_texts view.now)) }
{
    match view {
        View::Set(set) => push_set_lines(alloc, lines, set.get()),
        View::Group { .. } | View::Volume(_) => Ok(()),
    }
}

// The lines of a data set that is shown.
fn push_set_lines(alloc: Global, lines: &mut TextLines, set: &DataSet) -> Result<(), AllocError>
    ensures { OnOk result (lines.new ≡ lines.old ++ map indented (shown_texts set.now)) }
{
    push_line(lines, class_line(alloc, set)?)?;
    push_line(lines, used_line(alloc, set.used)?)?;
    push_extents(alloc, lines, set.extents.as_slice())
}

fn used_line(alloc: Global, used: u32) -> Result<Vec<u8>, AllocError>
    ensures { IfOk result (λ line. line.items ≡ indented (used_text used)) }
{
    let mut line = empty_line(alloc)?;
    line.extend_from_slice(b"  USED ")?;
    push_number(&mut line, u64::from(used))?;
    Ok(line)
}

fn class_line(alloc: Global, set: &DataSet) -> Result<Vec<u8>, AllocError>
    ensures { IfOk result (λ line. line.items ≡ indented (class_text set.now)) }
{
    let mut line = empty_line(alloc)?;
    push_class(&mut line, set)?;
    Ok(line)
}

// Puts the classes of a data set and its storage group behind a text, with two spaces before them.
fn push_class(text: &mut Vec<u8>, set: &DataSet) -> Result<(), AllocError>
    ensures { OnOk result (text.new.items ≡ text.old.items ++ indented (class_text set.now)) }
{
    let mut room = [0u8; ROOM];
    let classes = write_class(set, &mut room, ROOM);
    let start = write_word(b"  ", &mut room, classes);
    text.extend_from_slice(&room[start..])
}

/// Writes the classes of a data set and its storage group so that they end at this place; tells where they start. Any
/// bytes may stand before that afterwards.
pub fn write_class(set: &DataSet, room: &mut [u8; ROOM], end: usize) -> usize
    requires { (class_room ≤ end) × (end ≤ line_room) }
    ensures start { (end ≤ result + class_room) × (result ≤ end) }
    ensures written { drop result room.new ≡ class_text set.now ++ drop end room.old }
{
    let group = write_word(set.group.bytes(), room, end);
    let mgmtclas = write_word_and_blank(name_bytes(&set.mgmtclas), room, group);
    let storclas = write_word_and_blank(set.storclas.bytes(), room, mgmtclas);
    let dataclas = write_word_and_blank(name_bytes(&set.dataclas), room, storclas);
    write_word(b"CLASS ", room, dataclas)
}

fn push_extents(alloc: Global, lines: &mut TextLines, extents: &[Extent]) -> Result<(), AllocError>
    ensures { OnOk result (lines.new ≡ lines.old ++ map indented (map extent_text extents.now)) }
{
    for extent in extents {
        push_line(lines, extent_line(alloc, extent)?)?;
    }
    Ok(())
}

fn extent_line(alloc: Global, extent: &Extent) -> Result<Vec<u8>, AllocError>
    ensures { IfOk result (λ line. line.items ≡ indented (extent_text extent.now)) }
{
    let mut line = empty_line(alloc)?;
    push_extent(&mut line, extent)?;
    Ok(line)
}

// Puts the tracks of an extent behind a text, with two spaces before them.
fn push_extent(text: &mut Vec<u8>, extent: &Extent) -> Result<(), AllocError>
    ensures { OnOk result (text.new.items ≡ text.old.items ++ indented (extent_text extent.now)) }
{
    let mut room = [0u8; ROOM];
    let tracks = write_extent(extent, &mut room, ROOM);
    let start = write_word(b"  ", &mut room, tracks);
    text.extend_from_slice(&room[start..])
}

/// Writes the tracks of an extent in the same way.
pub fn write_extent(extent: &Extent, room: &mut [u8; ROOM], end: usize) -> usize
    requires { (extent_room ≤ end) × (end ≤ line_room) }
    ensures start { (end ≤ result + extent_room) × (result ≤ end) }
    ensures written { drop result room.new ≡ extent_text extent.now ++ drop end room.old }
{
    let length = write_number(u64::from(extent.length), room, end);
    let start = write_number_and_blank(u64::from(extent.start), room, length);
    let volser = write_word_and_blank(extent.volser.bytes(), room, start);
    write_word(b"EXTENT ", room, volser)
}
