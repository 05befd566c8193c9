//! The tables of storage groups, data sets and extents as comma-separated values.
ghost use Rattle.std.specs.Prelude.{◌≡◌, ◌++◌, flat_map, map, IfOk, OnOk};
ghost use Rattle.csv.specs.Writing.{default_writer, row_text};
ghost use Rattle.store_report.specs.Tables.{class_field, extent_fields, extents_header, extents_table, group_fields};
ghost use Rattle.store_report.specs.Tables.{groups_header, groups_table, set_fields, sets_header, sets_table};

use crate::csv_record::{count_text, number_text, record_text, sum_text};
use crate::extent_row::ExtentRow;
use dsn_mask::Name;
use page_text::GroupRow;
use sms_construct::DataSet;
use std::alloc::{AllocError, Global};

const GROUPS_HEADER: [&[u8]; 4] = [b"group", b"volumes", b"capacity", b"free"];

const SETS_HEADER: [&[u8]; 8] = [
    b"dsn",
    b"dataclas",
    b"storclas",
    b"mgmtclas",
    b"group",
    b"day",
    b"used",
    b"extents",
];

const EXTENTS_HEADER: [&[u8]; 4] = [b"dsn", b"volser", b"start", b"length"];

/// The table of these storage groups.
pub fn groups_csv(alloc: Global, rows: &[GroupRow]) -> Result<Vec<u8>, AllocError>
    ensures { IfOk result (λ text. text.items ≡ groups_table rows.now) }
{
    let mut text = groups_header_text(alloc)?;
    push_groups(alloc, &mut text, rows)?;
    Ok(text)
}

/// The table of these data sets.
pub fn sets_csv(alloc: Global, sets: &[&DataSet]) -> Result<Vec<u8>, AllocError>
    ensures { IfOk result (λ text. text.items ≡ sets_table (map (λ set. set.now) sets.now)) }
{
    let mut text = sets_header_text(alloc)?;
    push_sets(alloc, &mut text, sets)?;
    Ok(text)
}

/// The table of these extents.
pub fn extents_csv(alloc: Global, rows: &[ExtentRow]) -> Result<Vec<u8>, AllocError>
    ensures { IfOk result (λ text. text.items ≡ extents_table rows.now) }
{
    let mut text = extents_header_text(alloc)?;
    push_extents(alloc, &mut text, rows)?;
    Ok(text)
}

fn groups_header_text(alloc: Global) -> Result<Vec<u8>, AllocError>
    ensures { IfOk result (λ text. text.items ≡ row_text default_writer groups_header) }
{
    record_text(alloc, &GROUPS_HEADER)
}

fn sets_header_text(alloc: Global) -> Result<Vec<u8>, AllocError>
    ensures { IfOk result (λ text. text.items ≡ row_text default_writer sets_header) }
{
    record_text(alloc, &SETS_HEADER)
}

fn extents_header_text(alloc: Global) -> Result<Vec<u8>, AllocError>
    ensures { IfOk result (λ text. text.items ≡ row_text default_writer extents_header) }
{
    record_text(alloc, &EXTENTS_HEADER)
}

fn push_groups(alloc: Global, text: &mut Vec<u8>, rows: &[GroupRow]) -> Result<(), AllocError>
    ensures { OnOk result (text.new.items ≡
        text.old.items ++ flat_map (λ row. row_text default_writer (group_fields row)) rows.now) }
{
    for row in rows {
        push_group(alloc, text, row)?;
    }
    Ok(())
}

fn push_group(alloc: Global, text: &mut Vec<u8>, row: &GroupRow) -> Result<(), AllocError>
    ensures { OnOk result (text.new.items ≡ text.old.items ++ row_text default_writer (group_fields row.now)) }
{
    let volumes = sum_text(alloc, row.volumes)?;
    let capacity = sum_text(alloc, row.capacity)?;
    let free = sum_text(alloc, row.free)?;
    let record = record_text(alloc, &[row.group.bytes(), &volumes, &capacity, &free])?;
    text.extend_from_slice(&record)
}

fn push_sets(alloc: Global, text: &mut Vec<u8>, sets: &[&DataSet]) -> Result<(), AllocError>
    ensures { OnOk result (text.new.items ≡ text.old.items
        ++ flat_map (λ set. row_text default_writer (set_fields set)) (map (λ set. set.now) sets.entry.now)) }
{
    let mut rest = sets;
    while let [set, others @ ..] = rest {
        push_set(alloc, text, *set)?;
        rest = others;
    }
    Ok(())
}

fn push_set(alloc: Global, text: &mut Vec<u8>, set: &DataSet) -> Result<(), AllocError>
    ensures { OnOk result (text.new.items ≡ text.old.items ++ row_text default_writer (set_fields set.now)) }
{
    let day = number_text(alloc, set.day)?;
    let used = number_text(alloc, set.used)?;
    let extents = count_text(alloc, set.extents.as_slice().len())?;
    let record = record_text(
        alloc,
        &[
            set.dsn.bytes(),
            class_field(&set.dataclas),
            set.storclas.bytes(),
            class_field(&set.mgmtclas),
            set.group.bytes(),
            &day,
            &used,
            &extents,
        ],
    )?;
    text.extend_from_slice(&record)
}

// The name of a class, and nothing where there is none.
fn class_field(class: &Option<Name>) -> &[u8]
    ensures { result.now ≡ class_field class.now }
{
    match class {
        Some(name) => name.bytes(),
        None => b"",
    }
}

fn push_extents(alloc: Global, text: &mut Vec<u8>, rows: &[ExtentRow]) -> Result<(), AllocError>
    ensures { OnOk result (text.new.items ≡
        text.old.items ++ flat_map (λ row. row_text default_writer (extent_fields row)) rows.now) }
{
    for row in rows {
        push_extent(alloc, text, row)?;
    }
    Ok(())
}

fn push_extent(alloc: Global, text: &mut Vec<u8>, row: &ExtentRow) -> Result<(), AllocError>
    ensures { OnOk result (text.new.items ≡ text.old.items ++ row_text default_writer (extent_fields row.now)) }
{
    let start = number_text(alloc, row.extent.start)?;
    let length = number_text(alloc, row.extent.length)?;
    let record = record_text(
        alloc,
        &[row.dsn.bytes(), row.extent.volser.bytes(), &start, &length],
    )?;
    text.extend_from_slice(&record)
}
