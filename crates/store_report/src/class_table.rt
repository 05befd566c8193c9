//! The table of classes as comma-separated values.
ghost use Rattle.std.specs.Prelude.{◌≡◌, ◌++◌, ◌∷◌, [], flat_map, map, IfOk, OnOk};
ghost use Rattle.csv.specs.Writing.{default_writer, row_text};
ghost use Rattle.store_report.specs.ClassTable.{classes_header, classes_table, data_class_fields};
ghost use Rattle.store_report.specs.ClassTable.{management_class_fields, number_field, storage_class_fields};
ghost use Rattle.store_report.specs.ClassTable.{switch_field, unit_field};

use crate::class_parts::{count_of, eattr_bytes, primary_of, secondary_of, unit_bytes};
use crate::csv_record::{number_text, record_text};
use sms_construct::{DataClass, MgmtClass, Space, StorClass};
use std::alloc::{AllocError, Global};

const CLASSES_HEADER: [&[u8]; 10] = [
    b"kind",
    b"name",
    b"unit",
    b"primary",
    b"secondary",
    b"volcount",
    b"eattr",
    b"multi_tier",
    b"expire_after",
    b"release",
];

// A field of a kind that has no such value.
const EMPTY: &[u8] = b"";

/// The table of these classes, kind by kind.
pub fn classes_csv(
    alloc: Global,
    data_classes: &[DataClass],
    storage_classes: &[StorClass],
    management_classes: &[MgmtClass],
) -> Result<Vec<u8>, AllocError>
    ensures { IfOk result (λ text. text.items
        ≡ classes_table data_classes.now storage_classes.now management_classes.now) }
{
    let mut text = classes_header_text(alloc)?;
    push_data_classes(alloc, &mut text, data_classes)?;
    push_storage_classes(alloc, &mut text, storage_classes)?;
    push_management_classes(alloc, &mut text, management_classes)?;
    Ok(text)
}

fn classes_header_text(alloc: Global) -> Result<Vec<u8>, AllocError>
    ensures { IfOk result (λ text. text.items ≡ row_text default_writer classes_header) }
{
    record_text(alloc, &CLASSES_HEADER)
}

fn push_data_classes(
    alloc: Global,
    text: &mut Vec<u8>,
    classes: &[DataClass],
) -> Result<(), AllocError>
    ensures { OnOk result (text.new.items ≡
        text.old.items ++ flat_map (λ class. row_text default_writer (data_class_fields class)) classes.now) }
{
    for class in classes {
        push_data_class(alloc, text, class)?;
    }
    Ok(())
}

fn push_data_class(alloc: Global, text: &mut Vec<u8>, class: &DataClass) -> Result<(), AllocError>
    ensures { OnOk result (text.new.items ≡ text.old.items ++ row_text default_writer (data_class_fields class.now)) }
{
    let primary = number_field(alloc, primary_of(&class.space))?;
    let secondary = number_field(alloc, secondary_of(&class.space))?;
    let volumes = number_field(alloc, count_of(&class.volumes))?;
    let record = ten_fields(
        alloc,
        b"DATACLAS",
        class.name.bytes(),
        unit_field(&class.space),
        &primary,
        &secondary,
        &volumes,
        eattr_bytes(class.eattr),
        EMPTY,
        EMPTY,
        EMPTY,
    )?;
    text.extend_from_slice(&record)
}

fn push_storage_classes(
    alloc: Global,
    text: &mut Vec<u8>,
    classes: &[StorClass],
) -> Result<(), AllocError>
    ensures { OnOk result (text.new.items ≡
        text.old.items ++ flat_map (λ class. row_text default_writer (storage_class_fields class)) classes.now) }
{
    for class in classes {
        push_storage_class(alloc, text, class)?;
    }
    Ok(())
}

fn push_storage_class(
    alloc: Global,
    text: &mut Vec<u8>,
    class: &StorClass,
) -> Result<(), AllocError>
    ensures { OnOk result (text.new.items
        ≡ text.old.items ++ row_text default_writer (storage_class_fields class.now)) }
{
    let record = ten_fields(
        alloc,
        b"STORCLAS",
        class.name.bytes(),
        EMPTY,
        EMPTY,
        EMPTY,
        EMPTY,
        EMPTY,
        switch_field(class.multi_tier),
        EMPTY,
        EMPTY,
    )?;
    text.extend_from_slice(&record)
}

fn push_management_classes(
    alloc: Global,
    text: &mut Vec<u8>,
    classes: &[MgmtClass],
) -> Result<(), AllocError>
    ensures { OnOk result (text.new.items ≡
        text.old.items ++ flat_map (λ class. row_text default_writer (management_class_fields class)) classes.now) }
{
    for class in classes {
        push_management_class(alloc, text, class)?;
    }
    Ok(())
}

fn push_management_class(
    alloc: Global,
    text: &mut Vec<u8>,
    class: &MgmtClass,
) -> Result<(), AllocError>
    ensures { OnOk result (text.new.items
        ≡ text.old.items ++ row_text default_writer (management_class_fields class.now)) }
{
    let expire_after = number_field(alloc, class.expire_after)?;
    let record = ten_fields(
        alloc,
        b"MGMTCLAS",
        class.name.bytes(),
        EMPTY,
        EMPTY,
        EMPTY,
        EMPTY,
        EMPTY,
        EMPTY,
        &expire_after,
        switch_field(class.release),
    )?;
    text.extend_from_slice(&record)
}

// A record of ten fields.
fn ten_fields<'a>(
    alloc: Global,
    kind: &'a [u8],
    name: &'a [u8],
    unit: &'a [u8],
    primary: &'a [u8],
    secondary: &'a [u8],
    volcount: &'a [u8],
    eattr: &'a [u8],
    multi_tier: &'a [u8],
    expire_after: &'a [u8],
    release: &'a [u8],
) -> Result<Vec<u8>, AllocError>
    ensures { IfOk result (λ text. text.items ≡ row_text default_writer
        (kind.now ∷ name.now ∷ unit.now ∷ primary.now ∷ secondary.now ∷ volcount.now ∷ eattr.now
        ∷ multi_tier.now ∷ expire_after.now ∷ release.now ∷ [])) }
{
    record_text(
        alloc,
        &[
            kind,
            name,
            unit,
            primary,
            secondary,
            volcount,
            eattr,
            multi_tier,
            expire_after,
            release,
        ],
    )
}

// A number, and nothing where there is none.
fn number_field(alloc: Global, number: Option<u32>) -> Result<Vec<u8>, AllocError>
    ensures { IfOk result (λ text. text.items ≡ number_field number) }
{
    match number {
        Some(number) => number_text(alloc, number),
        None => Ok(Vec::new(alloc)),
    }
}

// The unit of a space, and nothing where there is none.
fn unit_field(space: &Option<Space>) -> &'static [u8]
    ensures { result.now ≡ unit_field space.now }
{
    match space {
        Some(space) => unit_bytes(space.unit()),
        None => EMPTY,
    }
}

// The word of a switch.
fn switch_field(switch: bool) -> &'static [u8]
    ensures { result.now ≡ switch_field switch }
{
    if switch { b"YES" } else { b"NO" }
}
