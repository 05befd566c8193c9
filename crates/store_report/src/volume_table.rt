//! The table of volumes as comma-separated values.
ghost use Rattle.std.specs.Prelude.{◌≡◌, ◌++◌, ◌∷◌, [], flat_map, IfOk, OnOk};
ghost use Rattle.csv.specs.Writing.{default_writer, row_text};
ghost use Rattle.store_report.specs.VolumeTable.{volume_fields, volumes_header, volumes_table};

use crate::csv_record::{number_text, record_text};
use crate::listed_volume::ListedVolume;
use sms_script::status_bytes;
use std::alloc::{AllocError, Global};

const HEADER: [&[u8]; 9] = [
    b"volser",
    b"group",
    b"status",
    b"capacity",
    b"free",
    b"extents",
    b"high",
    b"low",
    b"longest_gap",
];

/// The table of these volumes.
pub fn volumes_csv(alloc: Global, volumes: &[ListedVolume]) -> Result<Vec<u8>, AllocError>
    ensures { IfOk result (λ text. text.items ≡ volumes_table volumes.now) }
{
    let mut text = header_text(alloc)?;
    push_volumes(alloc, &mut text, volumes)?;
    Ok(text)
}

fn header_text(alloc: Global) -> Result<Vec<u8>, AllocError>
    ensures { IfOk result (λ text. text.items ≡ row_text default_writer volumes_header) }
{
    record_text(alloc, &HEADER)
}

fn push_volumes(
    alloc: Global,
    text: &mut Vec<u8>,
    volumes: &[ListedVolume],
) -> Result<(), AllocError>
    ensures { OnOk result (text.new.items ≡
        text.old.items ++ flat_map (λ volume. row_text default_writer (volume_fields volume)) volumes.now) }
{
    for volume in volumes {
        push_volume(alloc, text, volume)?;
    }
    Ok(())
}

fn push_volume(alloc: Global, text: &mut Vec<u8>, volume: &ListedVolume) -> Result<(), AllocError>
    ensures { OnOk result (text.new.items ≡ text.old.items ++ row_text default_writer (volume_fields volume.now)) }
{
    let capacity = number_text(alloc, volume.row.capacity)?;
    let free = number_text(alloc, volume.row.free)?;
    let extents = number_text(alloc, volume.row.extents)?;
    let high = number_text(alloc, u32::from(volume.high))?;
    let low = number_text(alloc, u32::from(volume.low))?;
    let longest_gap = number_text(alloc, volume.longest_gap)?;
    let record = nine_fields(
        alloc,
        volume.row.volser.bytes(),
        volume.row.group.bytes(),
        status_bytes(volume.row.status),
        &capacity,
        &free,
        &extents,
        &high,
        &low,
        &longest_gap,
    )?;
    text.extend_from_slice(&record)
}

// A record of nine fields.
fn nine_fields<'a>(
    alloc: Global,
    volser: &'a [u8],
    group: &'a [u8],
    status: &'a [u8],
    capacity: &'a [u8],
    free: &'a [u8],
    extents: &'a [u8],
    high: &'a [u8],
    low: &'a [u8],
    longest_gap: &'a [u8],
) -> Result<Vec<u8>, AllocError>
    ensures { IfOk result (λ text. text.items ≡ row_text default_writer
        (volser.now ∷ group.now ∷ status.now ∷ capacity.now ∷ free.now ∷ extents.now ∷ high.now ∷ low.now
        ∷ longest_gap.now ∷ [])) }
{
    record_text(
        alloc,
        &[
            volser,
            group,
            status,
            capacity,
            free,
            extents,
            high,
            low,
            longest_gap,
        ],
    )
}
