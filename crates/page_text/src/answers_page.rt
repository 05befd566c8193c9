//! Pages of answers.
ghost use Rattle.std.specs.Prelude.{◌≡◌, ◌++◌, IfOk, OnOk, false, map};
ghost use Rattle.serde_json.specs.Written.{compact_text, items_text};
ghost use Rattle.page_text.specs.PageBodies.{name_if};
ghost use Rattle.page_text.specs.AnswerBodies.{answers_body, entry_body, entry_values, name_in, target_name};
ghost use Rattle.page_text.specs.AnswerBodies.{word_of};
ghost use Rattle.page_text.specs.Inner.AnswerPieces.{answers_text, asked_piece, code_piece, entry_front, entry_rest};

use crate::coding::code_of;
use crate::pieces::{push_count, push_text};
use desk_common::Items;
use json_text::push_quoted;
use sms_construct::{Answer, Entry, Op, Target};
use sms_script::answer_lines;
use std::alloc::{AllocError, Global};

/// The page of these entries of a journal (docs/manual/smsd.md, "What pages show").
pub fn answers_body(alloc: Global, entries: &[&Entry]) -> Result<Items<u8>, AllocError>
    ensures { IfOk result (λ body. body ≡ answers_body (map (λ entry. entry.now) entries.now)) }
{
    let mut text = Vec::new(alloc);
    push_page(alloc, &mut text, entries)?;
    Ok(Items::from_vec(text))
}

fn push_page(alloc: Global, text: &mut Vec<u8>, entries: &[&Entry]) -> Result<(), AllocError>
    ensures { OnOk result (text.new.items
        ≡ text.old.items ++ answers_text (map (λ entry. entry.now) entries.now)) }
{
    text.extend_from_slice(b"{\"answers\":[")?;
    push_entries(alloc, text, entries)?;
    text.push(b'}')?;
    Ok(())
}

// Puts entries behind a text, with commas between them, and the closing bracket.
fn push_entries(alloc: Global, text: &mut Vec<u8>, entries: &[&Entry]) -> Result<(), AllocError>
    ensures { OnOk result (text.new.items
        ≡ text.old.items ++ items_text false (entry_values (map (λ entry. entry.now) entries.entry.now))) }
{
    let mut later = false;
    let mut rest = entries;
    while let [entry, others @ ..] = rest {
        if later {
            text.push(b',')?;
        }
        push_entry(alloc, text, *entry)?;
        later = true;
        rest = others;
    }
    text.push(b']')?;
    Ok(())
}

// Puts an entry behind a text.
fn push_entry(alloc: Global, text: &mut Vec<u8>, entry: &Entry) -> Result<(), AllocError>
    ensures { OnOk result (text.new.items ≡ text.old.items ++ entry_body entry.now) }
{
    push_front(text, entry)?;
    push_rest(alloc, text, entry)?;
    Ok(())
}

// Puts where an entry stands, and who asked, behind a text.
fn push_front(text: &mut Vec<u8>, entry: &Entry) -> Result<(), AllocError>
    ensures { OnOk result (text.new.items ≡ text.old.items ++ entry_front entry.now) }
{
    push_count(text, b"{\"place\":", entry.answer.place)?;
    push_count(text, b",\"first\":", entry.answer.first)?;
    push_text(text, b",\"job\":", entry.request.job.bytes())?;
    push_count(text, b",\"number\":", u64::from(entry.request.number.get()))?;
    Ok(())
}

// Puts what was answered and asked behind a text.
fn push_rest(alloc: Global, text: &mut Vec<u8>, entry: &Entry) -> Result<(), AllocError>
    ensures { OnOk result (text.new.items ≡ text.old.items ++ entry_rest entry.now) }
{
    push_code(alloc, text, &entry.answer)?;
    push_asked(text, &entry.request.op)?;
    text.push(b'}')?;
    Ok(())
}

// Puts the code of an answer behind a text.
fn push_code(alloc: Global, text: &mut Vec<u8>, answer: &Answer) -> Result<(), AllocError>
    ensures { OnOk result (text.new.items ≡ text.old.items ++ code_piece answer.now.reply) }
{
    let lines = answer_lines(alloc, answer)?;
    push_text(text, b",\"code\":", code_of(lines.as_slice()))
}

// Puts what was asked behind a text.
fn push_asked(text: &mut Vec<u8>, op: &Op) -> Result<(), AllocError>
    ensures { OnOk result (text.new.items ≡ text.old.items ++ asked_piece op.now) }
{
    push_text(text, b",\"asked\":", word_of(op))?;
    text.extend_from_slice(b",\"name\":")?;
    push_name(text, op)?;
    Ok(())
}

// The word for what is asked.
fn word_of(op: &Op) -> &'static [u8]
    ensures { result.now ≡ word_of op.now }
{
    match op {
        Op::Alloc(_) => b"ALLOC",
        Op::Activate(_) => b"ACTIVATE",
        Op::Extend(_) => b"EXTEND",
        Op::Delete(_) => b"DELETE",
        Op::Used { .. } => b"USED",
        Op::Release(_) => b"RELEASE",
        Op::Display(_) => b"DISPLAY",
        Op::Vary { .. } => b"VARY",
        Op::Purge { .. } => b"PURGE",
    }
}

// Puts the name of what it is asked of, or null for none, behind a text.
fn push_name(text: &mut Vec<u8>, op: &Op) -> Result<(), AllocError>
    ensures { OnOk result (text.new.items ≡ text.old.items ++ compact_text (name_if (name_in op.now))) }
{
    match op {
        Op::Alloc(allocation) => push_quoted(text, allocation.get().dsn().bytes()),
        Op::Activate(_) => text.extend_from_slice(b"null"),
        Op::Extend(dsn) | Op::Delete(dsn) | Op::Release(dsn) => push_quoted(text, dsn.bytes()),
        Op::Used { dsn, .. } => push_quoted(text, dsn.bytes()),
        Op::Display(target) => push_quoted(text, target_name(target)),
        Op::Vary { target, .. } => push_quoted(text, target_name(target)),
        Op::Purge { job, .. } => push_quoted(text, job.bytes()),
    }
}

fn target_name(target: &Target) -> &[u8]
    ensures { result.now ≡ target_name target.now }
{
    match target {
        Target::Group(name) => name.bytes(),
        Target::Volume(volser) => volser.bytes(),
        Target::Set(dsn) => dsn.bytes(),
    }
}
