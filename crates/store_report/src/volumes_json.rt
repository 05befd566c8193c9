//! Volumes as JSON.
ghost use Rattle.std.specs.Prelude.{◌≡◌, ◌++◌, IfOk, OnOk, false};
ghost use Rattle.serde_json.specs.Written.{comma_if, items_text};
ghost use Rattle.store_report.specs.VolumesJson.{volume_body, volume_values, volumes_body};
ghost use Rattle.store_report.specs.Inner.VolumePieces.{volume_figures, volume_measures, volume_names, volumes_piece};

use crate::listed_volume::ListedVolume;
use crate::pieces::{push_count, push_text};
use sms_script::status_bytes;
use std::alloc::{AllocError, Global};

/// These volumes as one value of JSON.
pub fn volumes_body(alloc: Global, volumes: &[ListedVolume]) -> Result<Vec<u8>, AllocError>
    ensures { IfOk result (λ text. text.items ≡ volumes_body volumes.now) }
{
    let mut text = Vec::new(alloc);
    push_body(&mut text, volumes)?;
    Ok(text)
}

fn push_body(text: &mut Vec<u8>, volumes: &[ListedVolume]) -> Result<(), AllocError>
    ensures { OnOk result (text.new.items ≡ text.old.items ++ volumes_piece volumes.now) }
{
    text.extend_from_slice(b"{\"volumes\":[")?;
    push_volumes(text, volumes)?;
    text.push(b'}')?;
    Ok(())
}

// Puts volumes behind a text, with commas between them, and the closing bracket.
fn push_volumes(text: &mut Vec<u8>, volumes: &[ListedVolume]) -> Result<(), AllocError>
    ensures { OnOk result (text.new.items ≡ text.old.items ++ items_text false (volume_values volumes.entry.now)) }
{
    let mut later = false;
    let mut rest = volumes;
    while let [volume, others @ ..] = rest {
        push_comma(text, later)?;
        push_volume(text, volume)?;
        later = true;
        rest = others;
    }
    text.push(b']')?;
    Ok(())
}

// Puts a comma behind a text that goes on.
fn push_comma(text: &mut Vec<u8>, later: bool) -> Result<(), AllocError>
    ensures { OnOk result (text.new.items ≡ text.old.items ++ comma_if later) }
{
    if later {
        text.push(b',')?;
    }
    Ok(())
}

// Puts a volume behind a text.
fn push_volume(text: &mut Vec<u8>, volume: &ListedVolume) -> Result<(), AllocError>
    ensures { OnOk result (text.new.items ≡ text.old.items ++ volume_body volume.now) }
{
    push_names(text, volume)?;
    push_figures(text, volume)?;
    push_measures(text, volume)?;
    Ok(())
}

// Puts its names and its status behind a text.
fn push_names(text: &mut Vec<u8>, volume: &ListedVolume) -> Result<(), AllocError>
    ensures { OnOk result (text.new.items ≡ text.old.items ++ volume_names volume.now) }
{
    push_text(text, b"{\"volser\":", volume.row.volser.bytes())?;
    push_text(text, b",\"group\":", volume.row.group.bytes())?;
    push_text(text, b",\"status\":", status_bytes(volume.row.status))?;
    Ok(())
}

// Puts its figures behind a text.
fn push_figures(text: &mut Vec<u8>, volume: &ListedVolume) -> Result<(), AllocError>
    ensures { OnOk result (text.new.items ≡ text.old.items ++ volume_figures volume.now) }
{
    push_count(text, b",\"capacity\":", volume.row.capacity)?;
    push_count(text, b",\"free\":", volume.row.free)?;
    push_count(text, b",\"extents\":", volume.row.extents)?;
    Ok(())
}

// Puts its thresholds and its longest gap behind a text.
fn push_measures(text: &mut Vec<u8>, volume: &ListedVolume) -> Result<(), AllocError>
    ensures { OnOk result (text.new.items ≡ text.old.items ++ volume_measures volume.now) }
{
    push_count(text, b",\"high\":", u32::from(volume.high))?;
    push_count(text, b",\"low\":", u32::from(volume.low))?;
    push_count(text, b",\"longest_gap\":", volume.longest_gap)?;
    text.push(b'}')?;
    Ok(())
}
