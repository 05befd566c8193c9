//! Constructs that a deck defines, each told in a line.
ghost use Rattle.std.specs.Prelude.{◌≡◌, ◌++◌, ℕ, List, OnOk};
ghost use Rattle.deck_changes.specs.DeckLines.{data_class_line, group_line, management_class_line};
ghost use Rattle.deck_changes.specs.DeckLines.{order_part, storage_class_line, thresholds_part, volume_line};

use crate::lines::{push_numbered, push_numbered_if, push_space, push_worded, switch_bytes};
use sms_construct::{DataClass, MgmtClass, StorClass, StorGroup, VolumeCount, VolumeDef};
use sms_script::status_bytes;
use std::alloc::AllocError;
use store_report::eattr_bytes;

/// A construct that a deck defines.
pub trait Construct {
    /// The line that tells it.
    ghost line: { Self → List ℕ };

    /// Puts its line behind a text, without a line end.
    fn push_line(&self, text: &mut Vec<u8>) -> Result<(), AllocError>
        ensures { OnOk result (text.new.items ≡ text.old.items ++ line self.now) };
}

impl Construct for DataClass {
    ghost use Rattle.deck_changes.specs.DeckLines.{data_class_line};

    ghost line = { data_class_line };

    fn push_line(&self, text: &mut Vec<u8>) -> Result<(), AllocError> {
        push_data_class(text, self)
    }
}

impl Construct for StorClass {
    ghost use Rattle.deck_changes.specs.DeckLines.{storage_class_line};

    ghost line = { storage_class_line };

    fn push_line(&self, text: &mut Vec<u8>) -> Result<(), AllocError> {
        push_storage_class(text, self)
    }
}

impl Construct for MgmtClass {
    ghost use Rattle.deck_changes.specs.DeckLines.{management_class_line};

    ghost line = { management_class_line };

    fn push_line(&self, text: &mut Vec<u8>) -> Result<(), AllocError> {
        push_management_class(text, self)
    }
}

impl Construct for StorGroup {
    ghost use Rattle.deck_changes.specs.DeckLines.{group_line};

    ghost line = { group_line };

    fn push_line(&self, text: &mut Vec<u8>) -> Result<(), AllocError> {
        push_group(text, self)
    }
}

impl Construct for VolumeDef {
    ghost use Rattle.deck_changes.specs.DeckLines.{volume_line};

    ghost line = { volume_line };

    fn push_line(&self, text: &mut Vec<u8>) -> Result<(), AllocError> {
        push_volume(text, self)
    }
}

fn push_data_class(text: &mut Vec<u8>, class: &DataClass) -> Result<(), AllocError>
    ensures { OnOk result (text.new.items ≡ text.old.items ++ data_class_line class.now) }
{
    push_worded(text, b"DATACLAS ", class.name.bytes())?;
    push_space(text, &class.space)?;
    push_numbered_if(text, b" volcount=", count_of(&class.volumes))?;
    push_worded(text, b" eattr=", eattr_bytes(class.eattr))?;
    Ok(())
}

// A number of volumes.
fn count_of(volumes: &Option<VolumeCount>) -> Option<u32>
    ensures { result ≡ volumes.now }
{
    match volumes {
        Some(count) => Some(u32::from(count.get())),
        None => None,
    }
}

fn push_storage_class(text: &mut Vec<u8>, class: &StorClass) -> Result<(), AllocError>
    ensures { OnOk result (text.new.items ≡ text.old.items ++ storage_class_line class.now) }
{
    push_worded(text, b"STORCLAS ", class.name.bytes())?;
    push_worded(text, b" multi_tier=", switch_bytes(class.multi_tier))?;
    Ok(())
}

fn push_management_class(text: &mut Vec<u8>, class: &MgmtClass) -> Result<(), AllocError>
    ensures { OnOk result (text.new.items ≡ text.old.items ++ management_class_line class.now) }
{
    push_worded(text, b"MGMTCLAS ", class.name.bytes())?;
    push_numbered_if(text, b" expire_after=", class.expire_after)?;
    push_worded(text, b" release=", switch_bytes(class.release))?;
    Ok(())
}

fn push_group(text: &mut Vec<u8>, group: &StorGroup) -> Result<(), AllocError>
    ensures { OnOk result (text.new.items ≡ text.old.items ++ group_line group.now) }
{
    push_worded(text, b"STORGRP ", group.name.bytes())?;
    push_worded(text, b" status=", status_bytes(group.status))?;
    push_thresholds(text, group)?;
    push_order(text, group)?;
    Ok(())
}

fn push_thresholds(text: &mut Vec<u8>, group: &StorGroup) -> Result<(), AllocError>
    ensures { OnOk result (text.new.items ≡ text.old.items ++ thresholds_part group.now) }
{
    push_numbered(text, b" high=", u64::from(group.high))?;
    push_numbered(text, b" low=", u64::from(group.low))?;
    Ok(())
}

fn push_order(text: &mut Vec<u8>, group: &StorGroup) -> Result<(), AllocError>
    ensures { OnOk result (text.new.items ≡ text.old.items ++ order_part group.now) }
{
    push_worded(text, b" overflow=", switch_bytes(group.overflow))?;
    push_numbered(text, b" breakpoint=", u64::from(group.breakpoint))?;
    Ok(())
}

fn push_volume(text: &mut Vec<u8>, volume: &VolumeDef) -> Result<(), AllocError>
    ensures { OnOk result (text.new.items ≡ text.old.items ++ volume_line volume.now) }
{
    push_worded(text, b"VOLUME ", volume.volser.bytes())?;
    push_worded(text, b" group=", volume.group.bytes())?;
    push_worded(text, b" status=", status_bytes(volume.status))?;
    push_numbered(text, b" tracks=", u64::from(volume.tracks))?;
    Ok(())
}
