// The volumes of a deck: how many there are, and which stand in two storage groups.
ghost use Rattle.std.specs.Prelude.{◌≡◌, [], OnOk, IfOk, codes, nat_lt, option_map};
ghost use Rattle.std.specs.Option.{option_and_then};
ghost use Rattle.toml.specs.Data.{as_table, get_member};
ghost use Rattle.toml.specs.View.{table_view, view};
ghost use Rattle.dsn_mask.specs.Name.{name_of, volser_of};
ghost use Rattle.deck_meaning.specs.Layout.{fault_told};
ghost use Rattle.sms_construct.specs.Configuration.{most_volumes};
ghost use Rattle.deck_meaning.specs.Constructs.{all_volumes, group_volumes, named, volume_of};
ghost use Rattle.deck_meaning.specs.Places.{put_volume, put_volumes, total_fault, volume_count, volume_total};
ghost use Rattle.deck_faults.specs.Faults.{twice_faults};
ghost use Rattle.deck_faults.specs.Inner.Telling.{put_all};

use crate::rows::{count_keys, find_table};
use crate::telling::tell;
use crate::volumes::volume;
use deck_meaning::{MAX_DECK_VOLUMES, Place};
use dsn_mask::{Name, Volser};
use sms_construct::{Fault, Path, VolumeDef};
use std::alloc::{AllocError, Global};
use std::collections::BTreeMap;
use toml::{Table, Value};

// How many volumes a storage group has.
fn count_volumes(group: &Value) -> usize
    ensures { result ≡ volume_count (view group.now) }
{
    match volumes_of(group) {
        Some(volumes) => count_keys(volumes),
        None => 0,
    }
}

// The volumes of a storage group, if it has any.
fn volumes_of(group: &Value) -> Option<&Table>
    ensures { option_map (λ t. table_view t.now) result ≡
        option_and_then (λ keys. option_and_then as_table (get_member (codes "volume") keys))
        (as_table (view group.entry.now)) }
{
    match group.as_table() {
        Some(keys) => find_table(keys, "volume"),
        None => None,
    }
}

// Whether the storage groups have more volumes than a deck may have.
fn has_too_many(groups: &Table) -> bool
    ensures { result ≡ nat_lt most_volumes (volume_total (table_view groups.now)) }
{
    let mut total = 0;
    for (_, group) in groups {
        let count = count_volumes(group);
        if count > MAX_DECK_VOLUMES - total {
            return true;
        }
        total += count;
    }
    false
}

/// Checks how many volumes a deck has.
pub fn check_total(top: &Table) -> Result<(), Fault>
    ensures { fault_told result ≡ total_fault (table_view top.now) }
{
    match find_table(top, "storgroup") {
        Some(groups) => {
            if has_too_many(groups) {
                Err(Fault::TooMany(Path::top().below(b"volume")))
            } else {
                Ok(())
            }
        }
        None => Ok(()),
    }
}

// Puts a volume at its place.
fn put_volume(places: &mut BTreeMap<Volser, Place>, volume: VolumeDef) -> Result<(), AllocError>
    ensures { OnOk result (places.new.entries ≡ put_volume places.old.entries volume) }
{
    let is_twice = places.contains_key(&volume.volser);
    match places.insert(volume.volser, Place { volume, is_twice }) {
        Ok(_) => Ok(()),
        Err(_) => Err(AllocError),
    }
}

// Puts the volumes of a storage group at their places.
fn put_group(
    places: &mut BTreeMap<Volser, Place>,
    group: &Name,
    volumes: &Table,
) -> Result<(), AllocError>
    ensures { OnOk result (places.new.entries ≡ put_volumes places.old.entries
        (named volser_of (volume_of group.now) (table_view volumes.now))) }
{
    for (volser, value) in volumes {
        if let Some(volser) = Volser::new(volser.as_bytes()) {
            if let Some(keys) = value.as_table() {
                put_volume(places, volume(*group, volser, keys))?;
            }
        }
    }
    Ok(())
}

// Puts the volumes of a storage group at their places, if it has a name and any volumes.
fn put_named(
    places: &mut BTreeMap<Volser, Place>,
    name: &str,
    value: &Value,
) -> Result<(), AllocError>
    ensures { OnOk result (places.new.entries ≡ put_volumes places.old.entries
        (group_volumes (name_of name.now) (as_table (view value.now)))) }
{
    let Some(name) = Name::new(name.as_bytes()) else {
        return Ok(());
    };
    match volumes_of(value) {
        Some(volumes) => put_group(places, &name, volumes),
        None => Ok(()),
    }
}

/// The volumes of storage groups at their places.
#[tactic(auto, using(sms_deck::proofs::PlaceLemmas::put_append))]
pub fn places_of(alloc: Global, groups: &Table) -> Result<BTreeMap<Volser, Place>, AllocError>
    ensures { IfOk result (λ places. places.entries ≡ put_volumes [] (all_volumes (table_view groups.now))) }
{
    let mut places = BTreeMap::new(alloc);
    for (name, value) in groups {
        put_named(&mut places, name.as_str(), value)?;
    }
    Ok(places)
}

/// Tells each serial that stands twice.
#[tactic(auto, using(crate::proofs::TellingLemmas::put_append))]
pub fn tell_twice(told: &mut Vec<Fault>, places: &BTreeMap<Volser, Place>) -> Result<(), AllocError>
    ensures { OnOk result (told.new.items ≡ put_all told.old.items (twice_faults places.now.entries)) }
{
    for (volser, place) in places {
        if place.is_twice {
            tell(told, Fault::TwoGroups(*volser))?;
        }
    }
    Ok(())
}
