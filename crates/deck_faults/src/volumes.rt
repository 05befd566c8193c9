// The volumes that a deck's tables define.
ghost use Rattle.std.specs.Prelude.{◌≡◌, ◌≤◌, IfSome, codes};
ghost use Rattle.toml.specs.View.{table_view};
ghost use Rattle.deck_meaning.specs.Limits.{most_cylinders};
ghost use Rattle.deck_meaning.specs.Values.{cylinders_in, devices, integer_in, volume_statuses, word_in};
ghost use Rattle.deck_meaning.specs.Constructs.{read_at, tracks_of, volume_of};

use crate::rows::value_at;
use crate::values::{cylinders_in, device_in, integer_in, volume_status_in};
use deck_meaning::MAX_TRACKS;
use desk_common::TRACKS_IN_CYLINDER;
use dsn_mask::{Name, Volser};
use sms_construct::{Status, VolumeDef};
use toml::Table;

// The integer of the range at a key, if there is one.
fn integer_at(keys: &Table, key: &str, least: u32, most: u32) -> Option<u32>
    ensures value { result ≡ read_at (integer_in least most) key.now (table_view keys.now) }
    ensures range { IfSome result (λ number. (least ≤ number) × (number ≤ most)) }
{
    match value_at(keys, key) {
        Some(value) => integer_in(value, least, most),
        None => None,
    }
}

fn device(keys: &Table) -> Option<u32>
    ensures { result ≡ read_at (word_in devices) (codes "device") (table_view keys.now) }
{
    match value_at(keys, "device") {
        Some(value) => device_in(value),
        None => None,
    }
}

fn cylinders(keys: &Table) -> Option<u32>
    ensures value { result ≡ read_at cylinders_in (codes "cylinders") (table_view keys.now) }
    ensures range { IfSome result (λ number. number ≤ most_cylinders) }
{
    match value_at(keys, "cylinders") {
        Some(value) => cylinders_in(value),
        None => None,
    }
}

fn tracks_of(keys: &Table) -> u32
    ensures { result ≡ tracks_of (table_view keys.now) }
{
    if let Some(tracks) = device(keys) {
        return tracks;
    }
    match cylinders(keys) {
        Some(cylinders) => cylinders * TRACKS_IN_CYLINDER,
        None => integer_at(keys, "tracks", 1, MAX_TRACKS).unwrap_or(1),
    }
}

fn volume_status(keys: &Table) -> Option<Status>
    ensures { result ≡ read_at (word_in volume_statuses) (codes "status") (table_view keys.now) }
{
    match value_at(keys, "status") {
        Some(value) => volume_status_in(value),
        None => None,
    }
}

/// The volume that its table defines.
pub fn volume(group: Name, volser: Volser, keys: &Table) -> VolumeDef
    ensures { result ≡ volume_of group volser (table_view keys.now) }
{
    VolumeDef {
        volser,
        group,
        status: volume_status(keys).unwrap_or(Status::Enable),
        tracks: tracks_of(keys),
    }
}
