//! What a volume grants.
ghost use Rattle.std.specs.Prelude.{◌≡◌, ◌<◌, ◌≤◌, length, option_map, slice_get, IfOk, IfSome, Some};
ghost use Rattle.desk_common.specs.Limits.{most_extents, most_pieces};
ghost use Rattle.desk_law.specs.State.{DeskState};
ghost use Rattle.desk_law.specs.Candidates.{grant_on};
ghost use Rattle.desk_law.specs.Lawful.{IsLawful};
ghost use Rattle.sms_volumes.specs.Asking.{IsAsked, ask_of};
ghost use Rattle.sms_volumes.specs.Changing.{IsFreeAt, running_at};
ghost use Rattle.sms_volumes.specs.Viewing.{candidates_in};
ghost use Rattle.sms_volumes.specs.declared.active_volume.ActiveVolume.{ActiveVolume};
ghost use Rattle.desk_state.specs.Inner.Granting.{IsGrantAmong, IsGranted};
ghost use Rattle.desk_state.specs.Standing.{IsRunning, IsSomeState};

use crate::running::Running;
use sms_construct::VolumeDef;
use sms_volumes::{Asked, Candidates};
use std::alloc::AllocError;
use track_ledger::Grant as Pieces;

/// Pieces that a volume grants, with its place among the active volumes. The volume has room for them.
#[derive(Drop)]
pub struct Grant {
    pub place: usize,
    pub volume: VolumeDef,
    pub pieces: Pieces,
}

impl Running {
    /// What the gap rule grants on the volume at a place to a data set that holds so many extents there, if anything
    /// (docs/manual/rules.md, "The gap rule").
    pub(crate) fn grant_at(
        &mut self,
        place: usize,
        asked: &Asked<'_>,
        held: u8,
    ) -> Result<Option<Grant>, AllocError>
        requires stands { IsSomeState self.old }
        requires place { place < length self.old.volumes.volumes.items }
        requires asked { IsAsked asked.now }
        requires held { held ≤ most_extents }
        ensures same { (s : DeskState) → IsRunning s self.old → IsRunning s self.new }
        ensures rule { IfOk result (λ found. (s : DeskState) (volume : ActiveVolume) → IsLawful s →
            IsRunning s self.old → slice_get self.old.volumes.volumes.items place ≡ Some volume →
            option_map (λ (grant : Grant). grant.pieces.items) found ≡ grant_on s volume.volume
            (ask_of asked.now) held) }
        ensures volume { IfOk result (λ found. IfSome found
            (λ (grant : Grant). running_at place self.old.volumes ≡ Some grant.volume)) }
        ensures ready { IfOk result (λ found. IfSome found (IsGranted self.new)) }
    {
        match self.volumes.plan(place, asked, held) {
            Some(pieces) => Ok(Some(self.with_room(place, pieces)?)),
            None => Ok(None),
        }
    }

    /// What a candidate that may be chosen grants to a data set that has no extent there, or `None` where all are
    /// rejected (docs/manual/rules.md, "The lists").
    pub(crate) fn grant_among(
        &mut self,
        candidates: &Candidates<'_>,
        asked: &Asked<'_>,
    ) -> Result<Option<Grant>, AllocError>
        requires stands { IsSomeState self.old }
        requires asked { IsAsked asked.now }
        ensures same { (s : DeskState) → IsRunning s self.old → IsRunning s self.new }
        ensures chosen { IfOk result (λ found. (s : DeskState) → IsLawful s → IsRunning s self.old →
            IsGrantAmong s (candidates_in s candidates.now) (ask_of asked.now) found) }
        ensures ready { IfOk result (λ found. IfSome found (IsGranted self.new)) }
    {
        match self.volumes.choose(candidates, asked) {
            Some(pick) => Ok(Some(self.with_room(pick.place, pick.grant)?)),
            None => Ok(None),
        }
    }

    // The grant of these pieces, for which the volume at the place takes room.
    fn with_room(&mut self, place: usize, pieces: Pieces) -> Result<Grant, AllocError>
        requires place { place < length self.old.volumes.volumes.items }
        requires few { length pieces.items ≤ most_pieces }
        requires free { IsFreeAt self.old.volumes place pieces.items }
        ensures same { (s : DeskState) → IsRunning s self.old → IsRunning s self.new }
        ensures pieces { IfOk result (λ grant. grant.pieces ≡ pieces) }
        ensures volume { IfOk result (λ grant. running_at place self.old.volumes ≡ Some grant.volume) }
        ensures ready { IfOk result (IsGranted self.new) }
    {
        let volume = self.volumes.volumes[place].volume;
        self.volumes.reserve(place)?;
        Ok(Grant {
            place,
            volume,
            pieces,
        })
    }
}
