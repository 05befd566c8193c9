//! EXTEND.
ghost use Rattle.std.specs.Prelude.{◌≡◌, ◌<◌, ◌≤◌, length, option_map, slice_get, IfOk, IfSome, MatchOption, None};
ghost use Rattle.std.specs.Prelude.{Some, nat_lt};
ghost use Rattle.desk_common.specs.Limits.{most_extents};
ghost use Rattle.desk_law.specs.Extension.{ExtendRule, ask_more, bars_growth, extended, first_volume, growth_on};
ghost use Rattle.desk_law.specs.Extension.{last_volume, others_of};
ghost use Rattle.desk_law.specs.Extents.{pieces_on, volumes_of};
ghost use Rattle.desk_law.specs.Lawful.{IsLawful};
ghost use Rattle.desk_law.specs.State.{DeskState};
ghost use Rattle.desk_law.specs.Statuses.{bars_group_growth, bars_volume_growth};
ghost use Rattle.sms_construct.specs.declared.volume.VolumeDef.{VolumeDef as Defined};
ghost use Rattle.sms_volumes.specs.Asking.{IsAsked, ask_of};
ghost use Rattle.sms_volumes.specs.Changing.{running_at};
ghost use Rattle.sms_volumes.specs.declared.active_volume.ActiveVolume.{ActiveVolume};
ghost use Rattle.desk_state.specs.Answering.{Answers};
ghost use Rattle.desk_state.specs.Catalog.{set_in};
ghost use Rattle.desk_state.specs.Deeds.{IsPossible};
ghost use Rattle.desk_state.specs.Inner.Growing.{Grows, IsGrowable, added_of};
ghost use Rattle.desk_state.specs.Inner.Granting.{IsGrantAmong, IsGranted};
ghost use Rattle.desk_state.specs.Standing.{IsRunning, IsSomeState};

use crate::decision::Decision;
use crate::deed::Deed;
use crate::extents::{count_on, count_volumes, extents_at, joined, with_extents};
use crate::grant::Grant;
use crate::running::Running;
use desk_common::Shared;
use dsn_mask::{Dsn, Name, Volser};
use sms_construct::{DataSet, Extent, Reply, Status, WhyNoExtend};
use sms_volumes::{Asked, Candidates};
use std::alloc::{AllocError, Global};

impl Running {
    /// What EXTEND is answered (docs/manual/rules.md, "EXTEND").
    pub(crate) fn decide_extend(&mut self, dsn: &Dsn) -> Result<Decision, AllocError>
        requires { IsSomeState self.old }
        ensures same { (s : DeskState) → IsRunning s self.old → IsRunning s self.new }
        ensures answers { IfOk result (λ made. (s : DeskState) → IsLawful s → IsRunning s self.old →
            Answers s self.new (ExtendRule s dsn.now) made) }
        ensures possible { IfOk result (λ made. IsPossible self.new made.deed) }
    {
        let Some(set) = self.growable(dsn)? else {
            return Ok(Decision::quiet(Reply::NotFound));
        };
        let set = set.get();
        if set.secondary == 0 {
            return Ok(Decision::quiet(Reply::NoExtend(WhyNoExtend::Secondary)));
        }
        match self.more_for(set)? {
            Some(grant) => extended(self.alloc, set, grant),
            None => Ok(Decision::quiet(Reply::NoExtend(WhyNoExtend::Room))),
        }
    }

    // The catalogued data set of this name.
    fn growable(&self, dsn: &Dsn) -> Result<Option<Shared<DataSet>>, AllocError>
        requires { IsSomeState self.now }
        ensures found { IfOk result (λ found. found ≡ set_in dsn.now self.now.catalog.sets) }
        ensures growable { IfOk result (λ found. IfSome found IsGrowable) }
    {
        match self.catalog.get(dsn) {
            Some(set) => Ok(Some(set.share()?)),
            None => Ok(None),
        }
    }

    // What the volume of its last extent grants the data set, or else a further one.
    fn more_for(&mut self, set: &DataSet) -> Result<Option<Grant>, AllocError>
        requires stands { IsSomeState self.old }
        requires growable { IsGrowable set.now }
        requires some { 0 < set.now.secondary }
        ensures same { (s : DeskState) → IsRunning s self.old → IsRunning s self.new }
        ensures grows { IfOk result (λ found. (s : DeskState) → IsLawful s → IsRunning s self.old →
            Grows s set.now found) }
        ensures ready { IfOk result (λ found. IfSome found (IsGranted self.new)) }
    {
        match self.growth(set)? {
            Some(grant) => Ok(Some(grant)),
            None if may_spread(set) => self.growth_beside(set),
            None => Ok(None),
        }
    }

    // What the volume of its last extent grants the data set, if anything.
    fn growth(&mut self, set: &DataSet) -> Result<Option<Grant>, AllocError>
        requires stands { IsSomeState self.old }
        requires growable { IsGrowable set.now }
        requires some { 0 < set.now.secondary }
        ensures same { (s : DeskState) → IsRunning s self.old → IsRunning s self.new }
        ensures grows { IfOk result (λ found. (s : DeskState) → IsLawful s → IsRunning s self.old →
            option_map added_of found ≡ growth_on s set.now (last_volume s set.now.extents)) }
        ensures ready { IfOk result (λ found. IfSome found (IsGranted self.new)) }
    {
        let Some(place) = self.last_place(set.extents.as_slice()) else {
            return Ok(None);
        };
        if self.bars_growth(place) {
            return Ok(None);
        }
        let held = held_on(set, &self.volumes.volumes[place].volume.volser);
        self.grant_at(place, &asked_more(set), held)
    }

    // What a further volume grants the data set, if one may be chosen: one of the storage group of its first volume.
    fn growth_beside(&mut self, set: &DataSet) -> Result<Option<Grant>, AllocError>
        requires stands { IsSomeState self.old }
        requires growable { IsGrowable set.now }
        requires some { 0 < set.now.secondary }
        ensures same { (s : DeskState) → IsRunning s self.old → IsRunning s self.new }
        ensures chosen { IfOk result (λ found. (s : DeskState) → IsLawful s → IsRunning s self.old →
            IsGrantAmong s (others_of s set.now (first_volume s set.now.extents)) (ask_more set.now) found) }
        ensures ready { IfOk result (λ found. IfSome found (IsGranted self.new)) }
    {
        let extents = set.extents.as_slice();
        let Some(group) = self.first_group(extents) else {
            return Ok(None);
        };
        let candidates = Candidates::Beside { group, extents };
        self.grant_among(&candidates, &asked_more(set))
    }

    // The place of the volume of the last extent.
    fn last_place(&self, extents: &[Extent]) -> Option<usize>
        ensures found { (s : DeskState) → IsRunning s self.now →
            MatchOption result (last_volume s extents.now ≡ None)
            (λ place. last_volume s extents.now ≡ running_at place self.now.volumes) }
        ensures within { MatchOption result (Unit {0}) (λ place. place < length self.now.volumes.volumes.items) }
    {
        let last = extents.last()?;
        self.volumes.place_of(&last.volser)
    }

    // The storage group of the volume of the first extent.
    fn first_group(&self, extents: &[Extent]) -> Option<Name>
        ensures { (s : DeskState) → IsRunning s self.now →
            result ≡ option_map (λ (volume : Defined). volume.group) (first_volume s extents.now) }
    {
        let first = extents.first()?;
        match self.volumes.place_of(&first.volser) {
            Some(place) => Some(self.volumes.volumes[place].volume.group),
            None => None,
        }
    }

    // Whether the volume at a place or its storage group gives no further tracks.
    fn bars_growth(&self, place: usize) -> bool
        requires stands { IsSomeState self.now }
        requires place { place < length self.now.volumes.volumes.items }
        ensures { (s : DeskState) (volume : ActiveVolume) → IsRunning s self.now →
            slice_get self.now.volumes.volumes.items place ≡ Some volume → result ≡ bars_growth s volume.volume }
    {
        let volume = &self.volumes.volumes[place];
        let group = &self.volumes.groups[volume.group];
        bars_group_growth(group.status) || bars_volume_growth(volume.status)
    }
}

fn bars_group_growth(status: Status) -> bool
    ensures { result ≡ bars_group_growth status }
{
    match status {
        Status::NotCon | Status::DisAll => true,
        Status::Enable | Status::DisNew | Status::QuiAll | Status::QuiNew => false,
    }
}

fn bars_volume_growth(status: Status) -> bool
    ensures { result ≡ bars_volume_growth status }
{
    match status {
        Status::DisAll => true,
        Status::Enable | Status::NotCon | Status::DisNew | Status::QuiAll | Status::QuiNew => false,
    }
}

// Whether the data set may lie on more volumes.
fn may_spread(set: &DataSet) -> bool
    ensures { result ≡ nat_lt (length (volumes_of set.now.extents)) set.now.volumes }
{
    count_volumes(set.extents.as_slice()) < usize::from(set.volumes.get())
}

// How many extents the data set has on the volume.
fn held_on(set: &DataSet, volser: &Volser) -> u8
    requires { IsGrowable set.now }
    ensures value { result ≡ length (pieces_on volser.now set.now.extents) }
    ensures few { result ≤ most_extents }
{
    count_on(set.extents.as_slice(), volser) as u8
}

// What is asked of the volumes for the data set: the secondary quantity.
fn asked_more(set: &DataSet) -> Asked<'_>
    requires growable { IsGrowable set.now }
    requires some { 0 < set.now.secondary }
    ensures value { ask_of result ≡ ask_more set.now }
    ensures asked { IsAsked result }
{
    Asked {
        unit: set.unit,
        tracks: set.secondary,
        volumes: set.volumes.get(),
        eattr: set.eattr,
        tiers: &[],
    }
}

// The decision that the data set gets what is granted.
fn extended(alloc: Global, set: &DataSet, grant: Grant) -> Result<Decision, AllocError>
    ensures { IfOk result (λ made. made ≡ record {
      reply = Reply.Extended (added_of grant);
      deed = Deed.Get (extended set.now (added_of grant)) grant.place grant.pieces;
    }) }
{
    let added = extents_at(alloc, &grant.volume.volser, grant.pieces.as_slice())?;
    let extents = joined(alloc, set.extents.as_slice(), added.as_slice())?;
    Ok(Decision {
        reply: Reply::Extended {
            added: Shared::new(alloc, added)?,
        },
        deed: Deed::Get {
            set: with_extents(alloc, set, set.used, extents)?,
            place: grant.place,
            pieces: grant.pieces,
        },
    })
}
