//! Why a candidate volume doesn't stand in the primary list.
ghost use Rattle.std.specs.Prelude.{◌≡◌, Some};
ghost use Rattle.volume_lists.specs.Listing.{is_enabled};
ghost use Rattle.volume_lists.specs.declared.lists.Listing.TheVariants.{Rejected};
ghost use Rattle.volume_lists.specs.declared.view.VolView.{VolView as View};
ghost use Rattle.volume_reasons.specs.Reasons.{hindrance_of, reason_in};

use sms_construct::Status;
use volume_lists::{Listing, VolView, Why};

/// Why a candidate volume doesn't stand in the primary list: the first test that it fails (docs/manual/rules.md, "The
/// lists").
#[derive(Clone, Copy)]
pub enum Reason {
    /// The status of its storage group isn't ENABLE.
    GroupStatus,
    /// Its own status isn't ENABLE.
    VolumeStatus,
    /// The gap rule grants the quantity nowhere on it.
    NoRoom,
    /// Its storage group has fewer volumes than the volume count.
    FewVolumes,
    /// Its storage group is an overflow group.
    Overflow,
    /// The quantity would fill it past the high threshold of its storage group.
    Threshold,
}

/// Why a volume of this list doesn't stand in the primary one.
pub fn reason_in(listing: Listing, view: &VolView) -> Option<Reason>
    ensures { result ≡ reason_in listing view.now }
{
    match listing {
        Listing::Primary => None,
        Listing::Secondary => Some(hindrance_of(view)),
        Listing::Tertiary => Some(Reason::FewVolumes),
        Listing::Rejected(why) => Some(rejection_of(why)),
    }
}

// Why a volume is rejected.
fn rejection_of(why: Why) -> Reason
    ensures { (view : View) → Some result ≡ reason_in (Rejected why) view }
{
    match why {
        Why::Group => Reason::GroupStatus,
        Why::Volume => Reason::VolumeStatus,
        Why::Room => Reason::NoRoom,
    }
}

// The first test of the primary list that a secondary volume fails.
fn hindrance_of(view: &VolView) -> Reason
    ensures { result ≡ hindrance_of view.now }
{
    if !is_enabled(view.group_status) {
        return Reason::GroupStatus;
    }
    if !is_enabled(view.status) {
        return Reason::VolumeStatus;
    }
    if view.overflow {
        return Reason::Overflow;
    }
    Reason::Threshold
}

fn is_enabled(status: Status) -> bool
    ensures { result ≡ is_enabled status }
{
    status == Status::Enable
}
