//! What an activation of a deck would be answered.
ghost use Rattle.std.specs.Prelude.{◌≡◌, IfOk, None, Some, find};
ghost use Rattle.std.specs.Option.{option_copied};
ghost use Rattle.desk_law.specs.Activation.{ActivateRule, ConfigurationRule};
ghost use Rattle.desk_law.specs.State.{DeskState};
ghost use Rattle.desk_law.specs.Volumes.{tracks_of};
ghost use Rattle.desk_pages.specs.Checking.{Comes, bars};
ghost use Rattle.desk_pages.specs.DeskPages.{IsCheckPage, checked_page};

use crate::said::shown;
use crate::shown_desk::ShownDesk;
use deck_meaning::{Config, DeckErr};
use desk_common::{Items, Shared};
use dsn_mask::Volser;
use http_flow::Page;
use page_text::{barred_body, passed_body};
use sms_construct::{Answer, DeckText, Fault, Reply, VolRow, VolumeDef};
use sms_deck::read_deck;
use std::alloc::{AllocError, Global};

/// What a fresh ACTIVATE of the deck would be answered.
pub fn check<D: ShownDesk>(alloc: Global, desk: &D, deck: &[u8]) -> Result<Page, AllocError>
    ensures { IfOk result (λ page. (s : DeskState) → D.stands desk.now s → IsCheckPage s deck.now page) }
{
    let deck = deck_text(alloc, deck)?;
    let found = barring(alloc, desk, &deck)?;
    match found {
        Some(reply) => barred(alloc, reply),
        None => passed(alloc),
    }
}

fn deck_text(alloc: Global, bytes: &[u8]) -> Result<DeckText, AllocError>
    ensures { IfOk result (λ deck. deck ≡ bytes.now) }
{
    let deck = Vec::from_slice(alloc, bytes)?;
    Shared::new(alloc, Items::from_vec(deck))
}

// The page of a deck that would be active.
fn passed(alloc: Global) -> Result<Page, AllocError>
    ensures { IfOk result (λ page. page ≡ checked_page None) }
{
    let body = passed_body(alloc)?;
    Ok(shown(body))
}

// The page of a deck that would get this reply instead.
fn barred(alloc: Global, reply: Reply) -> Result<Page, AllocError>
    ensures { IfOk result (λ page. page ≡ checked_page (Some reply)) }
{
    let answer = Answer {
        place: 0,
        first: 0,
        reply,
    };
    let body = barred_body(alloc, &answer)?;
    Ok(shown(body))
}

// The reply that says what stands in the way of a deck, if anything does.
fn barring<D: ShownDesk>(
    alloc: Global,
    desk: &D,
    deck: &DeckText,
) -> Result<Option<Reply>, AllocError>
    ensures { IfOk result (λ found. (s : DeskState) → D.stands desk.now s → Comes (ActivateRule s deck.now) found) }
{
    match read_deck(alloc, deck) {
        Ok(config) => barring_config(desk, &config),
        Err(DeckErr::Fault(fault)) => Ok(Some(faulted(alloc, fault)?)),
        Err(DeckErr::NoMemory) => Err(AllocError),
    }
}

fn faulted(alloc: Global, fault: Fault) -> Result<Reply, AllocError>
    ensures { IfOk result (λ reply. reply ≡ Reply.Deck fault) }
{
    Ok(Reply::Deck(Shared::new(alloc, fault)?))
}

// The reply that says what stands in the way of a configuration, if anything does.
fn barring_config<D: ShownDesk>(desk: &D, config: &Config) -> Result<Option<Reply>, AllocError>
    ensures { IfOk result (λ found. (s : DeskState) → D.stands desk.now s →
        Comes (ConfigurationRule s config.now) found) }
{
    let rows = desk.volumes()?;
    match first_barring(rows.as_slice(), config.volumes()) {
        Some(row) => Ok(Some(Reply::VolumeInUse(row.volser))),
        None => Ok(None),
    }
}

// The first volume that stands in the way of these.
fn first_barring<'a>(rows: &'a [VolRow], volumes: &[VolumeDef]) -> Option<&'a VolRow>
    ensures { option_copied result ≡ find (bars volumes.now) rows.entry.now }
{
    rows.iter().find(|row| bars(volumes, row))
}

fn bars(volumes: &[VolumeDef], row: &VolRow) -> bool
    ensures { result ≡ bars volumes.now row.now }
{
    row.extents > 0 && tracks_of(volumes, &row.volser) < row.capacity
}

// The tracks of a volume, 0 where there is none such.
fn tracks_of(volumes: &[VolumeDef], volser: &Volser) -> u32
    ensures { result ≡ tracks_of volser.now volumes.now }
{
    for volume in volumes {
        if volume.volser == *volser {
            return volume.tracks;
        }
    }
    0
}
