//! The page of storage groups.
ghost use Rattle.std.specs.Prelude.{◌≡◌, ◌++◌, IfOk, OnOk, false};
ghost use Rattle.serde_json.specs.Written.{items_text};
ghost use Rattle.page_text.specs.PageBodies.{group_body, group_values, groups_body};
ghost use Rattle.page_text.specs.Inner.Pieces.{group_piece, groups_text};

use crate::group_row::GroupRow;
use crate::pieces::{push_count, push_text};
use desk_common::Items;
use std::alloc::{AllocError, Global};

/// The page of all storage groups (docs/manual/smsd.md, "What pages show").
pub fn groups_body(alloc: Global, rows: &[GroupRow]) -> Result<Items<u8>, AllocError>
    ensures { IfOk result (λ body. body ≡ groups_body rows.now) }
{
    let mut text = Vec::new(alloc);
    push_page(&mut text, rows)?;
    Ok(Items::from_vec(text))
}

fn push_page(text: &mut Vec<u8>, rows: &[GroupRow]) -> Result<(), AllocError>
    ensures { OnOk result (text.new.items ≡ text.old.items ++ groups_text rows.now) }
{
    text.extend_from_slice(b"{\"groups\":[")?;
    push_groups(text, rows)?;
    text.push(b'}')?;
    Ok(())
}

// Puts storage groups behind a text, with commas between them, and the closing bracket.
fn push_groups(text: &mut Vec<u8>, rows: &[GroupRow]) -> Result<(), AllocError>
    ensures { OnOk result (text.new.items ≡ text.old.items ++ items_text false (group_values rows.entry.now)) }
{
    let mut later = false;
    let mut rest = rows;
    while let [row, others @ ..] = rest {
        if later {
            text.push(b',')?;
        }
        push_group(text, row)?;
        later = true;
        rest = others;
    }
    text.push(b']')?;
    Ok(())
}

// Puts a storage group behind a text.
fn push_group(text: &mut Vec<u8>, row: &GroupRow) -> Result<(), AllocError>
    ensures { OnOk result (text.new.items ≡ text.old.items ++ group_body row.now) }
{
    push_figures(text, row)?;
    Ok(())
}

fn push_figures(text: &mut Vec<u8>, row: &GroupRow) -> Result<(), AllocError>
    ensures { OnOk result (text.new.items ≡ text.old.items ++ group_piece row.now) }
{
    push_text(text, b"{\"group\":", row.group.bytes())?;
    push_count(text, b",\"volumes\":", row.volumes)?;
    push_count(text, b",\"capacity\":", row.capacity)?;
    push_count(text, b",\"free\":", row.free)?;
    text.push(b'}')?;
    Ok(())
}
