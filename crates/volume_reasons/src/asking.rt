//! What is asked of the volumes for a new data set.
ghost use Rattle.std.specs.Prelude.{◌≡◌, ◌≤◌, length};
ghost use Rattle.desk_common.specs.Limits.{most_groups_set};
ghost use Rattle.desk_law.specs.Allocation.{ask_of as primary_of, tiers_of, wish_with};
ghost use Rattle.desk_law.specs.Candidates.{want_of};
ghost use Rattle.desk_law.specs.Classification.{Classes};
ghost use Rattle.sms_construct.specs.Quantities.{Quantities};
ghost use Rattle.sms_construct.specs.declared.alloc.Alloc.{Alloc as Allocation};
ghost use Rattle.sms_volumes.specs.Asking.{IsAsked, ask_of};

use acs_tree::Values;
use deck_meaning::Config;
use dsn_mask::Name;
use sms_classes::{data_class_of, eattr_of, has_tiers, volume_count_of};
use sms_construct::{Alloc, Space};
use sms_volumes::Asked;
use volume_lists::Want;

/// What is asked of the volumes for an ALLOC whose classification is done and came to these values, where the request
/// or its data class names this space (docs/manual/rules.md, "ALLOC").
pub fn asked_for<'a>(
    config: &Config,
    allocation: &Alloc,
    values: &'a Values,
    space: Space,
) -> Asked<'a>
    ensures value { (classes : Classes) → classes.values ≡ values.entry.now →
        ask_of result ≡ primary_of (wish_with allocation.now config.now classes space) }
    ensures asked { IsAsked result }
{
    let class = data_class_of(config, &values.dataclas);
    Asked {
        unit: space.unit(),
        tracks: space.primary_tracks(),
        volumes: volume_count_of(allocation, class).get(),
        eattr: eattr_of(allocation, class),
        tiers: tiers_of(config, values),
    }
}

// The listed storage groups where their order counts, and else none.
fn tiers_of<'a>(config: &Config, values: &'a Values) -> &'a [Name]
    ensures value { (allocation : Allocation) (classes : Classes) (space : Quantities) →
        classes.values ≡ values.entry.now →
        result.now ≡ tiers_of (wish_with allocation config.now classes space) }
    ensures few { length result.now ≤ most_groups_set }
{
    if has_tiers(config, &values.storclas) {
        values.groups.as_slice()
    } else {
        &[]
    }
}

/// What the lists look at.
pub fn want_of(asked: &Asked<'_>) -> Want
    ensures { result ≡ want_of (ask_of asked.now) }
{
    Want {
        need: asked.tracks,
        volumes: asked.volumes,
    }
}
