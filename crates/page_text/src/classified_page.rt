//! The page of a classification.
ghost use Rattle.std.specs.Prelude.{◌≡◌, ◌++◌, IfOk, OnOk};
ghost use Rattle.page_text.specs.AnswerBodies.{classified_body};
ghost use Rattle.page_text.specs.Inner.AnswerPieces.{classified_text};

use crate::check_page::push_lines;
use crate::pieces::push_text;
use desk_common::Items;
use std::alloc::{AllocError, Global};

/// The page of a classification that ends so, with the lines that the routines wrote (docs/manual/smsd.md, "What pages
/// show").
pub fn classified_body(
    alloc: Global,
    outcome: &[u8],
    lines: &[Items<u8>],
) -> Result<Items<u8>, AllocError>
    ensures { IfOk result (λ body. body ≡ classified_body outcome.now lines.now) }
{
    let mut text = Vec::new(alloc);
    push_classified(&mut text, outcome, lines)?;
    Ok(Items::from_vec(text))
}

fn push_classified(
    text: &mut Vec<u8>,
    outcome: &[u8],
    lines: &[Items<u8>],
) -> Result<(), AllocError>
    ensures { OnOk result (text.new.items ≡ text.old.items ++ classified_text outcome.now lines.now) }
{
    push_text(text, b"{\"outcome\":", outcome)?;
    text.extend_from_slice(b",\"lines\":[")?;
    push_lines(text, lines)?;
    text.push(b'}')?;
    Ok(())
}
