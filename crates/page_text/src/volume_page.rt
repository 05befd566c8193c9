//! Pages of volumes.
ghost use Rattle.std.specs.Prelude.{◌≡◌, ◌++◌, IfOk, OnOk, false};
ghost use Rattle.serde_json.specs.Written.{items_text};
ghost use Rattle.page_text.specs.PageBodies.{volume_body, volume_values, volumes_body};
ghost use Rattle.page_text.specs.Inner.Pieces.{volume_front, volume_rest, volumes_text};

use crate::pieces::{push_count, push_text};
use desk_common::Items;
use sms_construct::VolRow;
use sms_script::status_bytes;
use std::alloc::{AllocError, Global};

/// The page of all volumes (docs/manual/smsd.md, "What pages show").
pub fn volumes_body(alloc: Global, rows: &[VolRow]) -> Result<Items<u8>, AllocError>
    ensures { IfOk result (λ body. body ≡ volumes_body rows.now) }
{
    let mut text = Vec::new(alloc);
    push_page(&mut text, rows)?;
    Ok(Items::from_vec(text))
}

fn push_page(text: &mut Vec<u8>, rows: &[VolRow]) -> Result<(), AllocError>
    ensures { OnOk result (text.new.items ≡ text.old.items ++ volumes_text rows.now) }
{
    text.extend_from_slice(b"{\"volumes\":[")?;
    push_volumes(text, rows)?;
    text.push(b'}')?;
    Ok(())
}

// Puts volumes behind a text, with commas between them, and the closing bracket.
fn push_volumes(text: &mut Vec<u8>, rows: &[VolRow]) -> Result<(), AllocError>
    ensures { OnOk result (text.new.items ≡ text.old.items ++ items_text false (volume_values rows.entry.now)) }
{
    let mut later = false;
    let mut rest = rows;
    while let [row, others @ ..] = rest {
        if later {
            text.push(b',')?;
        }
        push_volume(text, row)?;
        later = true;
        rest = others;
    }
    text.push(b']')?;
    Ok(())
}

// Puts a volume behind a text.
fn push_volume(text: &mut Vec<u8>, row: &VolRow) -> Result<(), AllocError>
    ensures { OnOk result (text.new.items ≡ text.old.items ++ volume_body row.now) }
{
    push_front(text, row)?;
    push_rest(text, row)?;
    Ok(())
}

/// Puts the names and the status of a volume behind a text.
pub fn push_front(text: &mut Vec<u8>, row: &VolRow) -> Result<(), AllocError>
    ensures { OnOk result (text.new.items ≡ text.old.items ++ volume_front row.now) }
{
    push_text(text, b"{\"volser\":", row.volser.bytes())?;
    push_text(text, b",\"group\":", row.group.bytes())?;
    push_text(text, b",\"status\":", status_bytes(row.status))?;
    Ok(())
}

// Puts its figures behind a text.
fn push_rest(text: &mut Vec<u8>, row: &VolRow) -> Result<(), AllocError>
    ensures { OnOk result (text.new.items ≡ text.old.items ++ volume_rest row.now) }
{
    push_count(text, b",\"capacity\":", u64::from(row.capacity))?;
    push_count(text, b",\"free\":", u64::from(row.free))?;
    push_count(text, b",\"extents\":", u64::from(row.extents))?;
    text.push(b'}')?;
    Ok(())
}
