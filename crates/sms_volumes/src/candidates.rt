//! Which volumes are looked at when one is to be chosen.
ghost use Rattle.std.specs.Prelude.{◌≡◌, bytes_eq};
ghost use Rattle.std.specs.List.{list_any};
ghost use Rattle.desk_law.specs.Extents.{is_used};
ghost use Rattle.sms_volumes.specs.Viewing.{is_candidate};

use dsn_mask::{Name, Volser};
use sms_construct::{Extent, VolumeDef};

/// The volumes from which one is to be chosen (docs/manual/rules.md, "The lists").
#[derive(Clone, Copy)]
pub enum Candidates<'a> {
    /// The volumes of these storage groups.
    Listed(&'a [Name]),
    /// The volumes of this storage group on which none of the extents lies.
    Beside { group: Name, extents: &'a [Extent] },
}

impl Candidates<'_> {
    /// Whether the volume is one of them.
    pub fn has(&self, volume: &VolumeDef) -> bool
        ensures { result ≡ is_candidate self.now volume.now }
    {
        match self {
            Candidates::Listed(groups) => is_listed(groups, volume.group.bytes()),
            Candidates::Beside { group, extents } => {
                volume.group == *group && !lies_on(extents, &volume.volser)
            }
        }
    }

    /// The storage group that is listed first.
    pub(crate) fn first_group(&self) -> Option<&Name> {
        match self {
            Candidates::Listed(groups) => groups.first(),
            Candidates::Beside { group, .. } => Some(group),
        }
    }
}

fn is_listed(groups: &[Name], name: &[u8]) -> bool
    ensures { result ≡ list_any (bytes_eq name.now) groups.now }
{
    groups.iter().any(|group| name == group.bytes())
}

/// Whether one of the extents lies on the volume. Those of one volume mostly stand together, so the last are looked
/// at first.
pub fn lies_on(extents: &[Extent], volser: &Volser) -> bool
    ensures { result ≡ is_used volser.now extents.now }
{
    extents.iter().rev().any(|extent| extent.volser == *volser)
}
