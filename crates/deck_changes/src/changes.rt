//! What a deck changes of the active configuration.
ghost use Rattle.std.specs.Prelude.{◌≡◌, ◌++◌, IfOk, OnOk};
ghost use Rattle.deck_changes.specs.DeckChanges.{AreChanges, IsChangedBy, IsDifference, changes_text, classes_change};
ghost use Rattle.deck_changes.specs.DeckChanges.{names_change, places_change};
ghost use Rattle.deck_changes.specs.DeckLines.{name_lines};
ghost use Rattle.deck_changes.specs.Differences.{difference};

use crate::missing::{push_difference, push_lines_difference};
use crate::routines::push_routines;
use deck_meaning::{Config, DeckErr};
use desk_common::Items;
use dsn_mask::Name;
use sms_construct::DeckText;
use sms_deck::read_deck;
use sms_explain::DeckSources;
use std::alloc::{AllocError, Global};

/// What a deck changes of the active configuration, a line for each construct, volume and routine that is gone or new
/// (docs/manual/smsd.md, "Check of a deck"); no line where nothing is active, or the deck has a fault.
pub fn deck_changes(
    alloc: Global,
    active: &Option<Config>,
    deck: &DeckText,
) -> Result<Vec<u8>, AllocError>
    ensures { IfOk result (λ text. IsDifference active.now deck.now text.items) }
{
    match active {
        Some(active) => changes_by(alloc, active, deck),
        None => Ok(Vec::new(alloc)),
    }
}

fn changes_by(alloc: Global, active: &Config, deck: &DeckText) -> Result<Vec<u8>, AllocError>
    ensures { IfOk result (λ text. IsChangedBy active.now deck.now text.items) }
{
    match read_deck(alloc, deck) {
        Ok(config) => changes_between(alloc, active, &config),
        Err(DeckErr::Fault(_)) => Ok(Vec::new(alloc)),
        Err(DeckErr::NoMemory) => Err(AllocError),
    }
}

// What one configuration changes of another.
fn changes_between(alloc: Global, before: &Config, after: &Config) -> Result<Vec<u8>, AllocError>
    ensures { IfOk result (λ text. AreChanges before.now after.now text.items) }
{
    let old = DeckSources::of(alloc, before.deck())?;
    let new = DeckSources::of(alloc, after.deck())?;
    let mut text = Vec::new(alloc);
    push_changes(alloc, &mut text, before, after, &old, &new)?;
    Ok(text)
}

fn push_changes(
    alloc: Global,
    text: &mut Vec<u8>,
    before: &Config,
    after: &Config,
    old: &DeckSources,
    new: &DeckSources,
) -> Result<(), AllocError>
    ensures { OnOk result (text.new.items ≡
        text.old.items ++ changes_text before.now after.now old.now new.now) }
{
    push_names(alloc, text, before, after)?;
    push_classes(alloc, text, before, after)?;
    push_places(alloc, text, before, after)?;
    push_routines(alloc, text, old, new)?;
    Ok(())
}

// What becomes of the names of the system and of the sysplex.
fn push_names(
    alloc: Global,
    text: &mut Vec<u8>,
    before: &Config,
    after: &Config,
) -> Result<(), AllocError>
    ensures { OnOk result (text.new.items ≡ text.old.items ++ names_change before.now after.now) }
{
    push_name(alloc, text, b"SYSTEM ", before.system(), after.system())?;
    push_name(alloc, text, b"SYSPLEX ", before.sysplex(), after.sysplex())?;
    Ok(())
}

fn push_name(
    alloc: Global,
    text: &mut Vec<u8>,
    front: &[u8],
    before: Option<Name>,
    after: Option<Name>,
) -> Result<(), AllocError>
    ensures { OnOk result (text.new.items ≡
        text.old.items ++ difference (name_lines front.now before) (name_lines front.now after)) }
{
    let old = name_lines(alloc, front, &before)?;
    let new = name_lines(alloc, front, &after)?;
    push_lines_difference(text, &old, &new)
}

// The line of a name, if there is one.
fn name_lines(
    alloc: Global,
    front: &[u8],
    name: &Option<Name>,
) -> Result<Vec<Items<u8>>, AllocError>
    ensures { IfOk result (λ lines. lines.items ≡ name_lines front.now name.now) }
{
    let mut lines = Vec::new(alloc);
    if let Some(name) = name {
        lines.push(name_line(alloc, front, name)?)?;
    }
    Ok(lines)
}

fn name_line(alloc: Global, front: &[u8], name: &Name) -> Result<Items<u8>, AllocError>
    ensures { IfOk result (λ line. line ≡ front.now ++ name.now) }
{
    let mut line = Vec::from_slice(alloc, front)?;
    line.extend_from_slice(name.bytes())?;
    Ok(Items::from_vec(line))
}

// What becomes of the classes.
fn push_classes(
    alloc: Global,
    text: &mut Vec<u8>,
    before: &Config,
    after: &Config,
) -> Result<(), AllocError>
    ensures { OnOk result (text.new.items ≡ text.old.items ++ classes_change before.now after.now) }
{
    push_difference(alloc, text, before.data_classes(), after.data_classes())?;
    push_difference(
        alloc,
        text,
        before.storage_classes(),
        after.storage_classes(),
    )?;
    push_difference(
        alloc,
        text,
        before.management_classes(),
        after.management_classes(),
    )?;
    Ok(())
}

// What becomes of the storage groups and their volumes.
fn push_places(
    alloc: Global,
    text: &mut Vec<u8>,
    before: &Config,
    after: &Config,
) -> Result<(), AllocError>
    ensures { OnOk result (text.new.items ≡ text.old.items ++ places_change before.now after.now) }
{
    push_difference(alloc, text, before.groups(), after.groups())?;
    push_difference(alloc, text, before.volumes(), after.volumes())?;
    Ok(())
}
