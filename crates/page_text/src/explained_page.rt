//! The page of what routines would do.
ghost use Rattle.std.specs.Prelude.{◌≡◌, ◌++◌, IfOk, OnOk};
ghost use Rattle.page_text.specs.AnswerBodies.{explained_body};
ghost use Rattle.page_text.specs.Inner.AnswerPieces.{explained_text};

use crate::pieces::push_text;
use desk_common::Items;
use std::alloc::{AllocError, Global};

/// The page of what routines would do, of which this tells (docs/manual/smsd.md, "What pages show").
pub fn explained_body(alloc: Global, told: &[u8]) -> Result<Items<u8>, AllocError>
    ensures { IfOk result (λ body. body ≡ explained_body told.now) }
{
    let mut text = Vec::new(alloc);
    push_explained(&mut text, told)?;
    Ok(Items::from_vec(text))
}

fn push_explained(text: &mut Vec<u8>, told: &[u8]) -> Result<(), AllocError>
    ensures { OnOk result (text.new.items ≡ text.old.items ++ explained_text told.now) }
{
    push_text(text, b"{\"text\":", told)?;
    text.push(b'}')?;
    Ok(())
}
