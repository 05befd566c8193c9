//! The page of storage groups.
ghost use Rattle.std.specs.Prelude.{◌≡◌, ◌++◌, IfOk, OnOk, false};
ghost use Rattle.serde_json.specs.Data.{boolean};
ghost use Rattle.serde_json.specs.Written.{compact_text, items_text};
ghost use Rattle.page_text.specs.GroupBodies.{shown_group_body, shown_group_values, shown_groups_body};
ghost use Rattle.page_text.specs.Inner.GroupPieces.{group_front, group_limits, group_rest, group_thresholds};
ghost use Rattle.page_text.specs.Inner.GroupPieces.{shown_groups_text};

use crate::group_row::GroupRow;
use crate::pieces::{push_count, push_text};
use crate::shown_group::ShownGroup;
use desk_common::Items;
use std::alloc::{AllocError, Global};

/// The page of all storage groups (docs/manual/smsd.md, "What pages show").
pub fn shown_groups_body(alloc: Global, groups: &[ShownGroup]) -> Result<Items<u8>, AllocError>
    ensures { IfOk result (λ body. body ≡ shown_groups_body groups.now) }
{
    let mut text = Vec::new(alloc);
    push_page(&mut text, groups)?;
    Ok(Items::from_vec(text))
}

fn push_page(text: &mut Vec<u8>, groups: &[ShownGroup]) -> Result<(), AllocError>
    ensures { OnOk result (text.new.items ≡ text.old.items ++ shown_groups_text groups.now) }
{
    text.extend_from_slice(b"{\"groups\":[")?;
    push_groups(text, groups)?;
    text.push(b'}')?;
    Ok(())
}

// Puts storage groups behind a text, with commas between them, and the closing bracket.
fn push_groups(text: &mut Vec<u8>, groups: &[ShownGroup]) -> Result<(), AllocError>
    ensures { OnOk result (text.new.items
        ≡ text.old.items ++ items_text false (shown_group_values groups.entry.now)) }
{
    let mut later = false;
    let mut rest = groups;
    while let [group, others @ ..] = rest {
        if later {
            text.push(b',')?;
        }
        push_group(text, group)?;
        later = true;
        rest = others;
    }
    text.push(b']')?;
    Ok(())
}

// Puts a storage group behind a text.
fn push_group(text: &mut Vec<u8>, group: &ShownGroup) -> Result<(), AllocError>
    ensures { OnOk result (text.new.items ≡ text.old.items ++ shown_group_body group.now) }
{
    push_sums(text, &group.row)?;
    push_limits(text, group)?;
    Ok(())
}

// Puts its name and the sums of its volumes behind a text.
fn push_sums(text: &mut Vec<u8>, row: &GroupRow) -> Result<(), AllocError>
    ensures { OnOk result (text.new.items ≡ text.old.items ++ group_front row.now) }
{
    push_text(text, b"{\"group\":", row.group.bytes())?;
    push_count(text, b",\"volumes\":", row.volumes)?;
    push_count(text, b",\"capacity\":", row.capacity)?;
    push_count(text, b",\"free\":", row.free)?;
    Ok(())
}

// Puts how its deck defines it behind a text.
fn push_limits(text: &mut Vec<u8>, group: &ShownGroup) -> Result<(), AllocError>
    ensures { OnOk result (text.new.items ≡ text.old.items ++ group_limits group.now) }
{
    push_thresholds(text, group)?;
    push_rest(text, group)?;
    Ok(())
}

fn push_thresholds(text: &mut Vec<u8>, group: &ShownGroup) -> Result<(), AllocError>
    ensures { OnOk result (text.new.items ≡ text.old.items ++ group_thresholds group.now) }
{
    push_count(text, b",\"high\":", u64::from(group.high))?;
    push_count(text, b",\"low\":", u64::from(group.low))?;
    Ok(())
}

fn push_rest(text: &mut Vec<u8>, group: &ShownGroup) -> Result<(), AllocError>
    ensures { OnOk result (text.new.items ≡ text.old.items ++ group_rest group.now) }
{
    push_flag(text, b",\"overflow\":", group.overflow)?;
    push_count(text, b",\"breakpoint\":", u64::from(group.breakpoint))?;
    text.push(b'}')?;
    Ok(())
}

// Puts what stands before a truth value, and the value, behind a text.
fn push_flag(text: &mut Vec<u8>, before: &[u8], flag: bool) -> Result<(), AllocError>
    ensures { OnOk result (text.new.items ≡ text.old.items ++ (before.now ++ compact_text (boolean flag))) }
{
    text.extend_from_slice(before)?;
    text.extend_from_slice(flag_bytes(flag))?;
    Ok(())
}

fn flag_bytes(flag: bool) -> &'static [u8]
    ensures { result.now ≡ compact_text (boolean flag) }
{
    if flag { b"true" } else { b"false" }
}
