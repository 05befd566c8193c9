//! The text of each list in each form.
ghost use Rattle.std.specs.Prelude.{◌≡◌, IfOk, map};
ghost use Rattle.store_report.specs.Texts.{classes_text, extents_text, groups_text, line_of, sets_text, volumes_text};

use crate::class_table::classes_csv;
use crate::classes_json::classes_body;
use crate::columns::{
    CLASSES_WIDTHS, EXTENTS_WIDTHS, GROUPS_WIDTHS, SETS_WIDTHS, VOLUMES_WIDTHS, columns_text,
};
use crate::extent_row::ExtentRow;
use crate::extents_json::extents_body;
use crate::format::Format;
use crate::listed_volume::ListedVolume;
use crate::tables::{extents_csv, groups_csv, sets_csv};
use crate::volume_table::volumes_csv;
use crate::volumes_json::volumes_body;
use page_text::{GroupRow, groups_body, sets_body};
use sms_construct::{DataClass, DataSet, MgmtClass, StorClass};
use std::alloc::{AllocError, Global};

/// The list of these storage groups (docs/manual/smsd.md, "Lists").
pub fn groups_text(alloc: Global, format: Format, rows: &[GroupRow]) -> Result<Vec<u8>, AllocError>
    ensures { IfOk result (λ text. text.items ≡ groups_text format rows.now) }
{
    match format {
        Format::Csv => groups_csv(alloc, rows),
        Format::Json => {
            let body = groups_body(alloc, rows)?;
            line_of(alloc, body.as_slice())
        }
        Format::Text => {
            let records = groups_csv(alloc, rows)?;
            columns_text(alloc, &records, &GROUPS_WIDTHS)
        }
    }
}

/// The list of these volumes (docs/manual/smsd.md, "Lists").
pub fn volumes_text(
    alloc: Global,
    format: Format,
    volumes: &[ListedVolume],
) -> Result<Vec<u8>, AllocError>
    ensures { IfOk result (λ text. text.items ≡ volumes_text format volumes.now) }
{
    match format {
        Format::Csv => volumes_csv(alloc, volumes),
        Format::Json => {
            let body = volumes_body(alloc, volumes)?;
            line_of(alloc, &body)
        }
        Format::Text => {
            let records = volumes_csv(alloc, volumes)?;
            columns_text(alloc, &records, &VOLUMES_WIDTHS)
        }
    }
}

/// The list of these classes (docs/manual/smsd.md, "Lists").
pub fn classes_text(
    alloc: Global,
    format: Format,
    data_classes: &[DataClass],
    storage_classes: &[StorClass],
    management_classes: &[MgmtClass],
) -> Result<Vec<u8>, AllocError>
    ensures { IfOk result (λ text. text.items
        ≡ classes_text format data_classes.now storage_classes.now management_classes.now) }
{
    match format {
        Format::Csv => classes_csv(alloc, data_classes, storage_classes, management_classes),
        Format::Json => {
            let body = classes_body(alloc, data_classes, storage_classes, management_classes)?;
            line_of(alloc, &body)
        }
        Format::Text => {
            let records = classes_csv(alloc, data_classes, storage_classes, management_classes)?;
            columns_text(alloc, &records, &CLASSES_WIDTHS)
        }
    }
}

/// The list of these data sets (docs/manual/smsd.md, "Lists").
pub fn sets_text(alloc: Global, format: Format, sets: &[&DataSet]) -> Result<Vec<u8>, AllocError>
    ensures { IfOk result (λ text. text.items ≡ sets_text format (map (λ set. set.now) sets.now)) }
{
    match format {
        Format::Csv => sets_csv(alloc, sets),
        Format::Json => {
            let body = sets_body(alloc, sets, None)?;
            line_of(alloc, body.as_slice())
        }
        Format::Text => {
            let records = sets_csv(alloc, sets)?;
            columns_text(alloc, &records, &SETS_WIDTHS)
        }
    }
}

/// The list of these extents (docs/manual/smsd.md, "Lists").
pub fn extents_text(
    alloc: Global,
    format: Format,
    rows: &[ExtentRow],
) -> Result<Vec<u8>, AllocError>
    ensures { IfOk result (λ text. text.items ≡ extents_text format rows.now) }
{
    match format {
        Format::Csv => extents_csv(alloc, rows),
        Format::Json => {
            let body = extents_body(alloc, rows)?;
            line_of(alloc, &body)
        }
        Format::Text => {
            let records = extents_csv(alloc, rows)?;
            columns_text(alloc, &records, &EXTENTS_WIDTHS)
        }
    }
}

// A value of JSON as a line.
fn line_of(alloc: Global, body: &[u8]) -> Result<Vec<u8>, AllocError>
    ensures { IfOk result (λ text. text.items ≡ line_of body.now) }
{
    let mut text = Vec::new(alloc);
    text.extend_from_slice(body)?;
    text.push(b'\n')?;
    Ok(text)
}
