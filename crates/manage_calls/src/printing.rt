// The text of the acts of a day.
ghost use Rattle.std.specs.Prelude.{◌≡◌, ◌++◌, count_by, flat_map, OnOk};
ghost use Rattle.sms_script.specs.AnswerText.{reply_text};
ghost use Rattle.sms_manage.specs.ManageText.{act_text, is_deleted, is_released, managed_text};

use desk_common::push_number;
use sms_construct::{Answer, Reply};
use sms_manage::Act;
use sms_script::{answer_lines, push_number_and_blank, push_word_and_blank};
use std::alloc::{AllocError, Global};

/// Puts a line for each act behind a text, and how many of them deleted and released.
pub fn push_managed(alloc: Global, text: &mut Vec<u8>, acts: &[Act]) -> Result<(), AllocError>
    ensures { OnOk result (text.new.items ≡ text.old.items ++ managed_text acts.now) }
{
    push_acts(alloc, text, acts)?;
    text.extend_from_slice(b"MANAGED ")?;
    push_number_and_blank(text, count_deleted(acts) as u64)?;
    push_number(text, count_released(acts) as u64)?;
    text.extend_from_slice(b"\n")
}

fn push_acts(alloc: Global, text: &mut Vec<u8>, acts: &[Act]) -> Result<(), AllocError>
    ensures { OnOk result (text.new.items ≡ text.old.items ++ flat_map act_text acts.now) }
{
    for act in acts {
        push_act(alloc, text, act)?;
    }
    Ok(())
}

fn push_act(alloc: Global, text: &mut Vec<u8>, act: &Act) -> Result<(), AllocError>
    ensures { OnOk result (text.new.items ≡ text.old.items ++ act_text act.now) }
{
    text.extend_from_slice(b"MANAGE ")?;
    push_number_and_blank(text, u64::from(act.number))?;
    push_word_and_blank(text, act.dsn.bytes())?;
    push_first_line(alloc, text, &act.answer)?;
    text.extend_from_slice(b"\n")
}

// The first line of an answer.
fn push_first_line(alloc: Global, text: &mut Vec<u8>, answer: &Answer) -> Result<(), AllocError>
    ensures { OnOk result (text.new.items ≡ text.old.items ++ reply_text answer.now.reply) }
{
    let lines = answer_lines(alloc, answer)?;
    match lines.as_slice() {
        [first, ..] => text.extend_from_slice(first.as_slice()),
        [] => Err(AllocError),
    }
}

fn count_deleted(acts: &[Act]) -> usize
    ensures { result ≡ count_by (λ act. is_deleted act.answer.reply) acts.now }
{
    let mut count = 0usize;
    for act in acts {
        count += usize::from(is_deleted(&act.answer.reply));
    }
    count
}

fn count_released(acts: &[Act]) -> usize
    ensures { result ≡ count_by (λ act. is_released act.answer.reply) acts.now }
{
    let mut count = 0usize;
    for act in acts {
        count += usize::from(is_released(&act.answer.reply));
    }
    count
}

fn is_deleted(reply: &Reply) -> bool
    ensures { result ≡ is_deleted reply.now }
{
    matches!(reply, Reply::Deleted { .. })
}

fn is_released(reply: &Reply) -> bool
    ensures { result ≡ is_released reply.now }
{
    matches!(reply, Reply::Released { .. })
}
