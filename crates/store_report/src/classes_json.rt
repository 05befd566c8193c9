//! Classes as JSON.
ghost use Rattle.std.specs.Prelude.{◌≡◌, ◌++◌, IfOk, OnOk, false};
ghost use Rattle.serde_json.specs.Written.{compact_text, items_text};
ghost use Rattle.store_report.specs.ClassesJson.{classes_body, data_class_body, data_class_values};
ghost use Rattle.store_report.specs.ClassesJson.{management_class_body, management_class_values};
ghost use Rattle.store_report.specs.ClassesJson.{storage_class_body, storage_class_values, unit_if};
ghost use Rattle.store_report.specs.Inner.ClassPieces.{classes_piece, data_class_rest, management_class_piece};
ghost use Rattle.store_report.specs.Inner.ClassPieces.{space_piece, storage_class_piece};

use crate::class_parts::{count_of, eattr_bytes, primary_of, secondary_of, unit_bytes};
use crate::pieces::{push_count_if, push_flag, push_text};
use json_text::push_quoted;
use sms_construct::{DataClass, MgmtClass, Space, StorClass};
use std::alloc::{AllocError, Global};

/// These classes as one value of JSON.
pub fn classes_body(
    alloc: Global,
    data_classes: &[DataClass],
    storage_classes: &[StorClass],
    management_classes: &[MgmtClass],
) -> Result<Vec<u8>, AllocError>
    ensures { IfOk result (λ text. text.items
        ≡ classes_body data_classes.now storage_classes.now management_classes.now) }
{
    let mut text = Vec::new(alloc);
    push_body(&mut text, data_classes, storage_classes, management_classes)?;
    Ok(text)
}

fn push_body(
    text: &mut Vec<u8>,
    data_classes: &[DataClass],
    storage_classes: &[StorClass],
    management_classes: &[MgmtClass],
) -> Result<(), AllocError>
    ensures { OnOk result (text.new.items ≡ text.old.items
        ++ classes_piece data_classes.now storage_classes.now management_classes.now) }
{
    text.extend_from_slice(b"{\"dataclas\":[")?;
    push_data_classes(text, data_classes)?;
    text.extend_from_slice(b",\"storclas\":[")?;
    push_storage_classes(text, storage_classes)?;
    text.extend_from_slice(b",\"mgmtclas\":[")?;
    push_management_classes(text, management_classes)?;
    text.push(b'}')?;
    Ok(())
}

// Puts classes behind a text, with commas between them, and the closing bracket.

fn push_data_classes(text: &mut Vec<u8>, classes: &[DataClass]) -> Result<(), AllocError>
    ensures { OnOk result (text.new.items ≡ text.old.items ++ items_text false (data_class_values classes.entry.now)) }
{
    let mut later = false;
    let mut rest = classes;
    while let [class, others @ ..] = rest {
        if later {
            text.push(b',')?;
        }
        push_data_class(text, class)?;
        later = true;
        rest = others;
    }
    text.push(b']')?;
    Ok(())
}

fn push_storage_classes(text: &mut Vec<u8>, classes: &[StorClass]) -> Result<(), AllocError>
    ensures { OnOk result (text.new.items
        ≡ text.old.items ++ items_text false (storage_class_values classes.entry.now)) }
{
    let mut later = false;
    let mut rest = classes;
    while let [class, others @ ..] = rest {
        if later {
            text.push(b',')?;
        }
        push_storage_class(text, class)?;
        later = true;
        rest = others;
    }
    text.push(b']')?;
    Ok(())
}

fn push_management_classes(text: &mut Vec<u8>, classes: &[MgmtClass]) -> Result<(), AllocError>
    ensures { OnOk result (text.new.items
        ≡ text.old.items ++ items_text false (management_class_values classes.entry.now)) }
{
    let mut later = false;
    let mut rest = classes;
    while let [class, others @ ..] = rest {
        if later {
            text.push(b',')?;
        }
        push_management_class(text, class)?;
        later = true;
        rest = others;
    }
    text.push(b']')?;
    Ok(())
}

// Puts a data class behind a text.
fn push_data_class(text: &mut Vec<u8>, class: &DataClass) -> Result<(), AllocError>
    ensures { OnOk result (text.new.items ≡ text.old.items ++ data_class_body class.now) }
{
    push_text(text, b"{\"name\":", class.name.bytes())?;
    push_space(text, &class.space)?;
    push_data_rest(text, class)?;
    Ok(())
}

// Puts what stands behind its space behind a text.
fn push_data_rest(text: &mut Vec<u8>, class: &DataClass) -> Result<(), AllocError>
    ensures { OnOk result (text.new.items ≡ text.old.items ++ data_class_rest class.now) }
{
    push_count_if(text, b",\"volcount\":", count_of(&class.volumes))?;
    push_text(text, b",\"eattr\":", eattr_bytes(class.eattr))?;
    text.push(b'}')?;
    Ok(())
}

// Puts a space behind a text.
fn push_space(text: &mut Vec<u8>, space: &Option<Space>) -> Result<(), AllocError>
    ensures { OnOk result (text.new.items ≡ text.old.items ++ space_piece space.now) }
{
    text.extend_from_slice(b",\"unit\":")?;
    push_unit_if(text, space)?;
    push_count_if(text, b",\"primary\":", primary_of(space))?;
    push_count_if(text, b",\"secondary\":", secondary_of(space))?;
    Ok(())
}

// Puts the unit of a space, or null for none, behind a text.
fn push_unit_if(text: &mut Vec<u8>, space: &Option<Space>) -> Result<(), AllocError>
    ensures { OnOk result (text.new.items ≡ text.old.items ++ compact_text (unit_if space.now)) }
{
    match space {
        Some(space) => push_quoted(text, unit_bytes(space.unit())),
        None => text.extend_from_slice(b"null"),
    }
}

// Puts a storage class behind a text.
fn push_storage_class(text: &mut Vec<u8>, class: &StorClass) -> Result<(), AllocError>
    ensures { OnOk result (text.new.items ≡ text.old.items ++ storage_class_body class.now) }
{
    push_storage_parts(text, class)?;
    Ok(())
}

fn push_storage_parts(text: &mut Vec<u8>, class: &StorClass) -> Result<(), AllocError>
    ensures { OnOk result (text.new.items ≡ text.old.items ++ storage_class_piece class.now) }
{
    push_text(text, b"{\"name\":", class.name.bytes())?;
    push_flag(text, b",\"multi_tier\":", class.multi_tier)?;
    text.push(b'}')?;
    Ok(())
}

// Puts a management class behind a text.
fn push_management_class(text: &mut Vec<u8>, class: &MgmtClass) -> Result<(), AllocError>
    ensures { OnOk result (text.new.items ≡ text.old.items ++ management_class_body class.now) }
{
    push_management_parts(text, class)?;
    Ok(())
}

fn push_management_parts(text: &mut Vec<u8>, class: &MgmtClass) -> Result<(), AllocError>
    ensures { OnOk result (text.new.items ≡ text.old.items ++ management_class_piece class.now) }
{
    push_text(text, b"{\"name\":", class.name.bytes())?;
    push_count_if(text, b",\"expire_after\":", class.expire_after)?;
    push_flag(text, b",\"release\":", class.release)?;
    text.push(b'}')?;
    Ok(())
}
