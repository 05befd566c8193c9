//! How long gaps are in a part of a volume, in whole units.
ghost use Rattle.std.specs.Prelude.{◌≡◌, ◌≤◌, ◌<◌, ◌+◌, ◌^◌, None, Some, max, nat_lt, if◌then◌else◌};
ghost use Rattle.sms_construct.specs.Quantities.{tracks_in_managed};
ghost use Rattle.track_ledger.specs.declared.measure.Measure.{Measure};
ghost use Rattle.track_ledger.specs.Gaps.{whole_units};
ghost use Rattle.track_ledger.specs.Inner.Measures.{length_at, units_by};

use crate::part::{clipped, cylinder_managed, track_managed};
use crate::piece::Piece;
use desk_common::TRACKS_IN_CYLINDER;
use sms_construct::TRACKS_IN_MANAGED;

/// A part of a volume with the unit in which its gaps are granted: the track-managed part in tracks or in cylinders,
/// or the cylinder-managed part.
#[derive(Clone, Copy)]
pub enum Measure {
    Tracks,
    Cylinders,
    Managed,
}

/// A length by each measure.
#[derive(Clone, Copy)]
pub struct Longest {
    pub tracks: u32,
    pub cylinders: u32,
    pub managed: u32,
}

impl Longest {
    /// The length by one of them.
    pub fn by(&self, measure: Measure) -> u32
        ensures { result ≡ length_at self.now measure }
    {
        match measure {
            Measure::Tracks => self.tracks,
            Measure::Cylinders => self.cylinders,
            Measure::Managed => self.managed,
        }
    }
}

// The whole units in a gap, or `None` where it holds none.
fn whole_units_in(gap: Piece, multiple: u32) -> Option<Piece>
    requires some { 0 < multiple }
    requires small { multiple ≤ tracks_in_managed }
    requires fits { gap.start + gap.length ≤ 2 ^ 32 }
    ensures { result ≡ (if nat_lt 0 (whole_units multiple gap).length then Some (whole_units multiple gap) else None) }
{
    if gap.length < multiple {
        return None;
    }
    let multiple = u64::from(multiple);
    let start = (u64::from(gap.start) + (multiple - 1)) / multiple * multiple;
    let end = gap.end() / multiple * multiple;
    if end > start {
        Some(Piece {
            start: start as u32,
            length: (end - start) as u32,
        })
    } else {
        None
    }
}

/// The whole units of what lies of a gap in the part, or `None` where it holds none.
pub fn units_in(gap: &Piece, measure: Measure) -> Option<Piece>
    ensures { result ≡ (if nat_lt 0 (units_by measure gap.now).length then Some (units_by measure gap.now) else None) }
{
    match measure {
        Measure::Tracks => whole_units_in(clipped(gap, &track_managed()), 1),
        Measure::Cylinders => whole_units_in(clipped(gap, &track_managed()), TRACKS_IN_CYLINDER),
        Measure::Managed => whole_units_in(clipped(gap, &cylinder_managed()), TRACKS_IN_MANAGED),
    }
}

// How many tracks they are.
fn length_in(gap: &Piece, measure: Measure) -> u32
    ensures { result ≡ (units_by measure gap.now).length }
{
    match units_in(gap, measure) {
        Some(cut) => cut.length,
        None => 0,
    }
}

/// How long a gap is by each measure.
pub fn lengths_of(gap: &Piece) -> Longest
    ensures { (measure : Measure) → length_at result measure ≡ (units_by measure gap.now).length }
{
    Longest {
        tracks: length_in(gap, Measure::Tracks),
        cylinders: length_in(gap, Measure::Cylinders),
        managed: length_in(gap, Measure::Managed),
    }
}

/// The longer of two by each measure.
pub fn longer(one: Longest, other: Longest) -> Longest
    ensures { (measure : Measure) → length_at result measure ≡ max (length_at one measure) (length_at other measure) }
{
    Longest {
        tracks: one.tracks.max(other.tracks),
        cylinders: one.cylinders.max(other.cylinders),
        managed: one.managed.max(other.managed),
    }
}
