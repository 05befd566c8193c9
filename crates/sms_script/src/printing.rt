//! Answers as text.
ghost use Rattle.std.specs.Prelude.{◌≡◌, ◌≤◌, ◌++◌, ◌∷◌, [], flat_map, length, IfOk, OnOk, decimal};
ghost use Rattle.desk_common.specs.Bytes.{space_byte};
ghost use Rattle.sms_script.specs.Script.{items_of};
ghost use Rattle.sms_script.specs.AnswerText.{answer_lines, end_text, ended, further_lines, head_text, item_text};
ghost use Rattle.sms_script.specs.AnswerText.{items_text, text_of, view_lines};

use crate::further_text::{push_further, push_view_lines};
use crate::granted_text::push_granted_text;
use crate::indenting::push_ended;
use crate::item::{Item, Phase, Script};
use crate::pushing::{
    ROOM, push_number_and_blank, write_number_and_blank, write_word, write_word_and_blank,
};
use crate::reply_text::{push_reply, push_view};
use crate::text_lines::{TextLines, empty_line, push_line};
use desk_common::{Items, push_number};
use sms_construct::{Answer, Reply, View};
use std::alloc::{AllocError, Global};

/// The lines of an answer: its reply, and the others, each with two leading spaces (docs/manual/script.md, "Answers").
pub fn answer_lines(alloc: Global, answer: &Answer) -> Result<TextLines, AllocError>
    ensures { IfOk result (λ lines. lines ≡ answer_lines answer.now) }
{
    let mut first = empty_line(alloc)?;
    push_reply(&mut first, &answer.reply)?;
    let mut lines = Items::new(alloc);
    push_line(&mut lines, first)?;
    push_further(alloc, &mut lines, &answer.reply)?;
    Ok(lines)
}

/// The lines of a view, as an answer shows it without its code.
pub fn view_lines(alloc: Global, view: &View) -> Result<TextLines, AllocError>
    ensures { IfOk result (λ lines. lines ≡ view_lines view.now) }
{
    let mut first = empty_line(alloc)?;
    push_view(&mut first, view)?;
    let mut lines = Items::new(alloc);
    push_line(&mut lines, first)?;
    push_view_lines(alloc, &mut lines, view)?;
    Ok(lines)
}

/// The lines of all items, each with its answer, and the last line with the number of entries of the desk.
pub fn print(
    alloc: Global,
    script: &Script,
    answers: &[Answer],
    entries: u64,
) -> Result<Vec<u8>, AllocError>
    requires { length answers.now ≡ length (items_of script.now) }
    ensures { IfOk result (λ text. text.items ≡ text_of script.now answers.now entries) }
{
    let mut text = Vec::new(alloc);
    push_phases(alloc, &mut text, script.as_slice(), answers)?;
    push_end(&mut text, entries, answers.len() as u64)?;
    Ok(text)
}

fn push_phases(
    alloc: Global,
    text: &mut Vec<u8>,
    phases: &[Phase],
    answers: &[Answer],
) -> Result<(), AllocError>
    requires { length answers.now ≡ length (items_of phases.now) }
    ensures { OnOk result (text.new.items ≡ text.old.items ++ items_text (items_of phases.now) answers.now) }
{
    let mut rest = answers;
    for phase in phases {
        let (answers, others) = rest.split_at(phase.len());
        push_items(alloc, text, phase.as_slice(), answers)?;
        rest = others;
    }
    Ok(())
}

fn push_items(
    alloc: Global,
    text: &mut Vec<u8>,
    items: &[Item],
    answers: &[Answer],
) -> Result<(), AllocError>
    requires { length answers.now ≡ length items.now }
    ensures { OnOk result (text.new.items ≡ text.old.items ++ items_text items.now answers.now) }
{
    for (at, item) in items.iter().enumerate() {
        push_item(alloc, text, item, &answers[at])?;
    }
    Ok(())
}

fn push_end(text: &mut Vec<u8>, entries: u64, items: u64) -> Result<(), AllocError>
    ensures { OnOk result (text.new.items ≡ text.old.items ++ end_text entries items) }
{
    text.extend_from_slice(b"END ")?;
    push_number_and_blank(text, entries)?;
    push_number(text, items)?;
    text.extend_from_slice(b"\n")
}

fn push_item(
    alloc: Global,
    text: &mut Vec<u8>,
    item: &Item,
    answer: &Answer,
) -> Result<(), AllocError>
    ensures { OnOk result (text.new.items ≡ text.old.items ++ item_text item.now answer.now) }
{
    push_head(text, item, answer)?;
    push_further_text(alloc, text, &answer.reply)
}

// The lines behind the first one of a reply.
fn push_further_text(alloc: Global, text: &mut Vec<u8>, reply: &Reply) -> Result<(), AllocError>
    ensures { OnOk result (text.new.items ≡ text.old.items ++ flat_map ended (further_lines reply.now)) }
{
    match reply {
        Reply::Granted { set, trace } => push_granted_text(alloc, text, set.get(), trace.get()),
        _ => push_ended(text, further_of(alloc, reply)?.as_slice()),
    }
}

fn further_of(alloc: Global, reply: &Reply) -> Result<TextLines, AllocError>
    ensures { IfOk result (λ lines. lines ≡ further_lines reply.now) }
{
    let mut lines = Items::new(alloc);
    push_further(alloc, &mut lines, reply)?;
    Ok(lines)
}

// The first line. That of a data set that was allocated has no figures of its own, and is written at once.
fn push_head(text: &mut Vec<u8>, item: &Item, answer: &Answer) -> Result<(), AllocError>
    ensures { OnOk result (text.new.items ≡ text.old.items ++ ended (head_text item.now answer.now)) }
{
    match &answer.reply {
        Reply::Granted { .. } => push_places(text, item, answer, b"A00 GRANTED\n"),
        reply => {
            push_places(text, item, answer, b"")?;
            push_reply(text, reply)?;
            text.extend_from_slice(b"\n")
        }
    }
}

// The line of an item, the places of its entry and of the first reply, the request, and what stands behind them.
fn push_places(
    text: &mut Vec<u8>,
    item: &Item,
    answer: &Answer,
    behind: &[u8],
) -> Result<(), AllocError>
    requires { length behind.now ≤ 12 }
    ensures { OnOk result (text.new.items ≡ text.old.items ++
        (decimal item.now.line ++ space_byte ∷ (decimal answer.now.place ++ space_byte ∷
        (decimal answer.now.first ++ space_byte ∷ (item.now.request.job ++ space_byte ∷
        (decimal item.now.request.number ++ space_byte ∷ behind.now)))))) }
{
    let mut room = [0u8; ROOM];
    let end = write_word(behind, &mut room, ROOM);
    let number = write_number_and_blank(u64::from(item.request.number.get()), &mut room, end);
    let job = write_word_and_blank(item.request.job.bytes(), &mut room, number);
    let first = write_number_and_blank(answer.first, &mut room, job);
    let place = write_number_and_blank(answer.place, &mut room, first);
    let start = write_number_and_blank(u64::from(item.line), &mut room, place);
    text.extend_from_slice(&room[start..])
}
