//! The pages of the desk as a whole.
ghost use Rattle.std.specs.Prelude.{◌≡◌, ◌++◌, IfOk, OnOk};
ghost use Rattle.page_text.specs.PageBodies.{desk_body, error_body, health_body};
ghost use Rattle.page_text.specs.Inner.Pieces.{desk_text, error_text};

use crate::pieces::{push_count, push_count_if, push_text};
use desk_common::Items;
use std::alloc::{AllocError, Global};

/// The page of the desk: how many activations there were where something is active, how many entries its journal has,
/// and how many volumes are active (docs/manual/smsd.md, "What pages show").
pub fn desk_body(
    alloc: Global,
    activations: Option<u64>,
    entries: u64,
    volumes: u64,
) -> Result<Items<u8>, AllocError>
    ensures { IfOk result (λ body. body ≡ desk_body activations entries volumes) }
{
    let mut text = Vec::new(alloc);
    push_desk(&mut text, activations, entries, volumes)?;
    Ok(Items::from_vec(text))
}

fn push_desk(
    text: &mut Vec<u8>,
    activations: Option<u64>,
    entries: u64,
    volumes: u64,
) -> Result<(), AllocError>
    ensures { OnOk result (text.new.items ≡ text.old.items ++ desk_text activations entries volumes) }
{
    text.extend_from_slice(b"{\"activations\":")?;
    push_count_if(text, activations)?;
    push_count(text, b",\"entries\":", entries)?;
    push_count(text, b",\"volumes\":", volumes)?;
    text.push(b'}')?;
    Ok(())
}

/// The page that says that the desk is there.
pub fn health_body(alloc: Global) -> Result<Items<u8>, AllocError>
    ensures { IfOk result (λ body. body ≡ health_body) }
{
    let mut text = Vec::new(alloc);
    text.extend_from_slice(b"{\"health\":\"ok\"}")?;
    Ok(Items::from_vec(text))
}

/// The page that says in a sentence what is wrong.
pub fn error_body(alloc: Global, sentence: &[u8]) -> Result<Items<u8>, AllocError>
    ensures { IfOk result (λ body. body ≡ error_body sentence.now) }
{
    let mut text = Vec::new(alloc);
    push_error(&mut text, sentence)?;
    Ok(Items::from_vec(text))
}

fn push_error(text: &mut Vec<u8>, sentence: &[u8]) -> Result<(), AllocError>
    ensures { OnOk result (text.new.items ≡ text.old.items ++ error_text sentence.now) }
{
    push_text(text, b"{\"error\":", sentence)?;
    text.push(b'}')?;
    Ok(())
}
