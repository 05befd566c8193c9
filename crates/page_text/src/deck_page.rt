//! The page of the active deck.
ghost use Rattle.std.specs.Prelude.{◌≡◌, ◌++◌, IfOk, OnOk};
ghost use Rattle.page_text.specs.PageBodies.{deck_body, no_deck_body};
ghost use Rattle.page_text.specs.Inner.Pieces.{deck_text};

use crate::pieces::push_text;
use desk_common::Items;
use std::alloc::{AllocError, Global};

/// The page of the active deck, whose text this is (docs/manual/smsd.md, "What pages show").
pub fn deck_body(alloc: Global, deck: &[u8]) -> Result<Items<u8>, AllocError>
    ensures { IfOk result (λ body. body ≡ deck_body deck.now) }
{
    let mut text = Vec::new(alloc);
    push_deck(&mut text, deck)?;
    Ok(Items::from_vec(text))
}

fn push_deck(text: &mut Vec<u8>, deck: &[u8]) -> Result<(), AllocError>
    ensures { OnOk result (text.new.items ≡ text.old.items ++ deck_text deck.now) }
{
    push_text(text, b"{\"deck\":", deck)?;
    text.push(b'}')?;
    Ok(())
}

/// The same where none is active.
pub fn no_deck_body(alloc: Global) -> Result<Items<u8>, AllocError>
    ensures { IfOk result (λ body. body ≡ no_deck_body) }
{
    let mut text = Vec::new(alloc);
    text.extend_from_slice(b"{\"deck\":null}")?;
    Ok(Items::from_vec(text))
}
