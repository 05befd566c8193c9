//! The page of a deck's check.
ghost use Rattle.std.specs.Prelude.{◌≡◌, ◌++◌, IfOk, OnOk, false};
ghost use Rattle.serde_json.specs.Written.{items_text};
ghost use Rattle.page_text.specs.AnswerBodies.{barred_body, line_values, passed_body};
ghost use Rattle.page_text.specs.Inner.AnswerPieces.{check_text};

use crate::coding::code_of;
use crate::pieces::push_text;
use desk_common::Items;
use json_text::push_quoted;
use sms_construct::Answer;
use sms_script::answer_lines;
use std::alloc::{AllocError, Global};

/// The page of the check of a deck that would be active (docs/manual/smsd.md, "What pages show").
pub fn passed_body(alloc: Global) -> Result<Items<u8>, AllocError>
    ensures { IfOk result (λ body. body ≡ passed_body) }
{
    let mut text = Vec::new(alloc);
    text.extend_from_slice(b"{\"code\":\"A04\",\"lines\":[]}")?;
    Ok(Items::from_vec(text))
}

/// The page of the check of a deck that would get the reply of this answer instead.
pub fn barred_body(alloc: Global, answer: &Answer) -> Result<Items<u8>, AllocError>
    ensures { IfOk result (λ body. body ≡ barred_body answer.now.reply) }
{
    let lines = answer_lines(alloc, answer)?;
    let mut text = Vec::new(alloc);
    push_check(&mut text, code_of(lines.as_slice()), lines.as_slice())?;
    Ok(Items::from_vec(text))
}

fn push_check(text: &mut Vec<u8>, code: &[u8], lines: &[Items<u8>]) -> Result<(), AllocError>
    ensures { OnOk result (text.new.items ≡ text.old.items ++ check_text code.now lines.now) }
{
    push_text(text, b"{\"code\":", code)?;
    text.extend_from_slice(b",\"lines\":[")?;
    push_lines(text, lines)?;
    text.push(b'}')?;
    Ok(())
}

/// Puts lines as strings behind a text, with commas between them, and the closing bracket.
pub fn push_lines(text: &mut Vec<u8>, lines: &[Items<u8>]) -> Result<(), AllocError>
    ensures { OnOk result (text.new.items ≡ text.old.items ++ items_text false (line_values lines.entry.now)) }
{
    let mut later = false;
    let mut rest = lines;
    while let [line, others @ ..] = rest {
        if later {
            text.push(b',')?;
        }
        push_quoted(text, line.as_slice())?;
        later = true;
        rest = others;
    }
    text.push(b']')?;
    Ok(())
}
