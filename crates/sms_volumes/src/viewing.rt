//! The choice of a volume.
ghost use Rattle.std.specs.Prelude.{◌≡◌, ◌≤◌, ◌<◌, ◌++◌, ◌∷◌, [], List, drop, length, slice_get, take, IfSome, None};
ghost use Rattle.std.specs.Prelude.{MatchOption, Some, option_map};
ghost use Rattle.desk_common.specs.Limits.{most_extents, most_groups_set, most_pieces};
ghost use Rattle.desk_law.specs.State.{DeskState};
ghost use Rattle.desk_law.specs.Candidates.{grant_on, tier_among, want_of};
ghost use Rattle.desk_law.specs.Lawful.{IsLawful};
ghost use Rattle.sms_volumes.specs.Asking.{IsAsked, ask_of, need_in};
ghost use Rattle.sms_volumes.specs.Changing.{IsFreeAt};
ghost use Rattle.sms_volumes.specs.Holding.{AreVolumesOf, StandForSome};
ghost use Rattle.sms_volumes.specs.Inner.Leading.{Leads, candidates_among, view_in};
ghost use Rattle.sms_volumes.specs.Viewing.{IsPick, running_named};
ghost use Rattle.sms_volumes.specs.declared.active_volume.ActiveVolume.{ActiveVolume as Running};

use crate::active_group::ActiveGroup;
use crate::active_volume::ActiveVolume;
use crate::active_volumes::ActiveVolumes;
use crate::asked::Asked;
use crate::candidates::Candidates;
use crate::lead::Lead;
use crate::pick::Pick;
use dsn_mask::{Name, Volser};
use track_ledger::{Grant, Need};
use volume_lists::{VolView, Want, comes_before, listing, rank};

impl Asked<'_> {
    // What is needed of a volume of the storage group, on which the data set holds so many extents.
    fn need(&self, group: &ActiveGroup, held: u8) -> Need
        ensures { result ≡ need_in self.now group.now held }
    {
        Need {
            unit: self.unit,
            tracks: self.tracks,
            held,
            eattr: self.eattr,
            breakpoint: group.group.breakpoint,
        }
    }

    // What the lists look at.
    fn want(&self) -> Want
        ensures { result ≡ want_of (ask_of self.now) }
    {
        Want {
            need: self.tracks,
            volumes: self.volumes,
        }
    }

    // The position of the storage group where the order counts.
    fn tier(&self, name: &Name) -> u8
        requires { length self.now.tiers.now ≤ most_groups_set }
        ensures { result ≡ tier_among self.now.tiers.now name.now }
    {
        let mut tier = 0;
        for group in self.tiers {
            if *group == *name {
                return tier;
            }
            tier += 1;
        }
        tier
    }

    // The volume as it would stand if it had room.
    fn view(&self, volume: &ActiveVolume, group: &ActiveGroup) -> VolView
        requires { length self.now.tiers.now ≤ most_groups_set }
        ensures { result ≡ view_in self.now volume.now group.now }
    {
        VolView {
            volser: volume.volume.volser,
            group: volume.volume.group,
            group_status: group.status,
            status: volume.status,
            overflow: group.group.overflow,
            high: group.group.high,
            capacity: volume.volume.tracks,
            granted: volume.ledger.granted() as u32,
            group_volumes: group.volumes,
            fits: true,
            tier: self.tier(&volume.volume.group),
        }
    }
}

impl ActiveVolumes {
    /// The place of the volume of this serial.
    pub fn place_of(&self, volser: &Volser) -> Option<usize>
        ensures found { MatchOption result (running_named volser.now self.now.volumes.items ≡ None)
            (λ place. running_named volser.now self.now.volumes.items ≡ slice_get self.now.volumes.items place) }
        ensures within { MatchOption result (Unit {0}) (λ place. place < length self.now.volumes.items) }
    {
        for place in 0..self.volumes.len() {
            if self.volumes[place].volume.volser == *volser {
                return Some(place);
            }
        }
        None
    }

    /// A candidate that may be chosen for what is asked (docs/manual/rules.md, "The lists") and what the gap rule
    /// grants on it, or `None` where all are rejected. Equally good volumes are taken in turn, which no clause says.
    /// Takes no memory.
    pub fn choose(&mut self, candidates: &Candidates<'_>, asked: &Asked<'_>) -> Option<Pick>
        requires asked { IsAsked asked.now }
        requires stand { StandForSome self.old }
        ensures same { (s : DeskState) → AreVolumesOf s self.old → AreVolumesOf s self.new }
        ensures volumes { self.new.volumes.items ≡ self.old.volumes.items }
        ensures pick { (s : DeskState) → IsLawful s → AreVolumesOf s self.old →
            IsPick s self.new candidates.now asked.now result }
    {
        let group = self.first_group(candidates);
        let pick = self.pick_from(self.place_behind_latest(group), candidates, asked);
        if let Some(pick) = &pick {
            self.note_latest(group, pick.place);
        }
        pick
    }

    // The place of the storage group that is listed first, or past the last where there is none.
    fn first_group(&self, candidates: &Candidates<'_>) -> usize {
        if let Some(name) = candidates.first_group() {
            for place in 0..self.groups.len() {
                if self.groups[place].group.name == *name {
                    return place;
                }
            }
        }
        self.groups.len()
    }

    // The place behind the volume that was chosen last where this storage group was listed first.
    fn place_behind_latest(&self, group: usize) -> usize
        ensures { result ≤ length self.now.volumes.items }
    {
        match self.latest.get(group) {
            Some(Some(latest)) if *latest < self.volumes.len() => *latest + 1,
            _ => 0,
        }
    }

    // The volume at the place is the one that was chosen last where this storage group was listed first.
    fn note_latest(&mut self, group: usize, place: usize)
        ensures groups { self.new.groups ≡ self.old.groups }
        ensures volumes { self.new.volumes ≡ self.old.volumes }
    {
        if let Some(latest) = self.latest.get_mut(group) {
            *latest = Some(place);
        }
    }

    // A candidate that may be chosen, where those from a place on are looked at before the others.
    fn pick_from(
        &self,
        start: usize,
        candidates: &Candidates<'_>,
        asked: &Asked<'_>,
    ) -> Option<Pick>
        requires start { start ≤ length self.now.volumes.items }
        requires asked { IsAsked asked.now }
        requires stand { StandForSome self.now }
        ensures { (s : DeskState) → IsLawful s → AreVolumesOf s self.now →
            IsPick s self.now candidates.now asked.now result }
    {
        let mut lead = Lead::none();
        self.look_over(start, self.volumes.len(), candidates, asked, &mut lead);
        self.look_over(0, start, candidates, asked, &mut lead);
        lead.pick
    }

    // Looks at the volumes from one place up to another, as long as one may come before the lead.
    fn look_over(
        &self,
        from: usize,
        to: usize,
        candidates: &Candidates<'_>,
        asked: &Asked<'_>,
        lead: &mut Lead,
    )
        requires from { from ≤ to }
        requires to { to ≤ length self.now.volumes.items }
        requires asked { IsAsked asked.now }
        requires stand { StandForSome self.now }
        ensures { (s : DeskState) (seen : List Running) → IsLawful s → AreVolumesOf s self.now →
            Leads s self.now (candidates_among candidates.now seen) asked.now lead.old →
            Leads s self.now (candidates_among candidates.now (seen ++ drop from (take to self.now.volumes.items)))
            asked.now lead.new }
    {
        for place in from..to {
            if lead.is_first() {
                return;
            }
            self.look_at(place, candidates, asked, lead);
        }
    }

    // The volume at the place takes the lead where it is a candidate, comes before the one that leads, and has room.
    fn look_at(&self, place: usize, candidates: &Candidates<'_>, asked: &Asked<'_>, lead: &mut Lead)
        requires place { place < length self.now.volumes.items }
        requires asked { IsAsked asked.now }
        requires stand { StandForSome self.now }
        ensures { (s : DeskState) (seen : List Running) (volume : Running) → IsLawful s → AreVolumesOf s self.now →
            slice_get self.now.volumes.items place ≡ Some volume →
            Leads s self.now (candidates_among candidates.now seen) asked.now lead.old →
            Leads s self.now (candidates_among candidates.now (seen ++ volume ∷ [])) asked.now lead.new }
    {
        let volume = &self.volumes[place];
        if !candidates.has(&volume.volume) {
            return;
        }
        let Some(group) = self.groups.get(volume.group) else {
            return;
        };
        let view = asked.view(volume, group);
        let rank = rank(listing(&view, &asked.want()));
        if !comes_before(rank, view.tier, lead.rank, lead.tier) {
            return;
        }
        let Some(grant) = volume.ledger.plan(&asked.need(group, 0)) else {
            return;
        };
        *lead = Lead {
            pick: Some(Pick { place, grant }),
            rank,
            tier: view.tier,
        };
    }

    /// What the gap rule grants on the volume at a place to a data set that holds so many extents there, or `None`
    /// where it grants nothing (docs/manual/rules.md, "The gap rule"). Takes no memory.
    pub fn plan(&self, place: usize, asked: &Asked<'_>, held: u8) -> Option<Grant>
        requires place { place < length self.now.volumes.items }
        requires asked { IsAsked asked.now }
        requires held { held ≤ most_extents }
        requires stand { StandForSome self.now }
        ensures rule { (s : DeskState) (volume : Running) → IsLawful s → AreVolumesOf s self.now →
            slice_get self.now.volumes.items place ≡ Some volume →
            option_map (λ grant. grant.items) result ≡ grant_on s volume.volume (ask_of asked.now) held }
        ensures free { IfSome result (λ grant. IsFreeAt self.now place grant.items) }
        ensures few { IfSome result (λ grant. length grant.items ≤ most_pieces) }
    {
        let volume = &self.volumes[place];
        let group = self.groups.get(volume.group)?;
        volume.ledger.plan(&asked.need(group, held))
    }
}
