//! Tracks that data sets get and give back.
ghost use Rattle.std.specs.Prelude.{◌≡◌, ◌≤◌, ◌<◌, ◌++◌, ◌∷◌, [], List, ℕ, length, slice_get, IfSome, OnOk, Some};
ghost use Rattle.std.specs.List.{AllByRecursion, AllZip};
ghost use Rattle.sms_construct.specs.declared.data_set.DataSet.{DataSet};
ghost use Rattle.track_ledger.specs.declared.piece.Piece.{Piece as Tracks};
ghost use Rattle.desk_common.specs.Limits.{most_pieces};
ghost use Rattle.desk_law.specs.State.{DeskState, with_set, without_name};
ghost use Rattle.desk_law.specs.Extents.{extents_at, extents_named};
ghost use Rattle.desk_law.specs.Lawful.{IsLawful};
ghost use Rattle.sms_volumes.specs.Changing.{HasChanged, HoldsAll, IsFreeAt, IsFront, IsPartOf, IsReadyAt, LiesOnSome};
ghost use Rattle.sms_volumes.specs.Changing.{extent_if, running_at};
ghost use Rattle.sms_volumes.specs.Inner.Handing.{AreApart};
ghost use Rattle.sms_volumes.specs.Holding.{AreVolumesOf};
ghost use Rattle.sms_volumes.specs.declared.active_volume.ActiveVolume.{ActiveVolume as Running};

use crate::active_volumes::ActiveVolumes;
use desk_common::MAX_PIECES;
use sms_construct::Extent;
use std::alloc::AllocError;
use track_ledger::Piece;

fn piece_of(extent: &Extent) -> Piece
    ensures { result ≡ record { start = extent.now.start; length = extent.now.length } }
{
    Piece {
        start: extent.start,
        length: extent.length,
    }
}

impl ActiveVolumes {
    /// Makes room on the volume at a place for one grant, so that `install` may follow and takes no memory.
    pub fn reserve(&mut self, place: usize) -> Result<(), AllocError>
        requires place { place < length self.old.volumes.items }
        ensures same { (s : DeskState) → AreVolumesOf s self.old → AreVolumesOf s self.new }
        ensures ready { OnOk result ((pieces : List Tracks) → length pieces ≤ most_pieces →
            IsFreeAt self.old place pieces → IsReadyAt self.new place pieces) }
        ensures named { running_at place self.new ≡ running_at place self.old }
    {
        let volume = &mut self.volumes[place];
        volume.ledger.reserve(MAX_PIECES)
    }

    /// A data set holds these pieces of the volume at a place too. It takes no memory.
    pub fn install(&mut self, place: usize, pieces: &[Piece])
        requires { IsReadyAt self.old place pieces.now }
        ensures { (s : DeskState) (set : DataSet) (volume : Running) → IsLawful s → AreVolumesOf s self.old →
            slice_get self.old.volumes.items place ≡ Some volume →
            set.extents ≡ extents_named set.dsn s.sets ++ extents_at volume.volume.volser pieces.now →
            AreVolumesOf (with_set s set) self.new }
    {
        let volume = &mut self.volumes[place];
        volume.ledger.install(pieces);
    }

    /// The data set that lies on these extents is dropped: all its tracks are free. It takes no memory.
    pub fn release(&mut self, extents: &[Extent])
        requires { LiesOnSome self.old extents.now }
        ensures { (s : DeskState) (dsn : List ℕ) → IsLawful s → AreVolumesOf s self.old →
            extents.now ≡ extents_named dsn s.sets → AreVolumesOf (without_name s dsn) self.new }
    {
        self.keep_each(extents, &[]);
    }

    /// The data set that lies on the first extents keeps the second, which are their front. It takes no memory.
    pub fn trim(&mut self, extents: &[Extent], kept: &[Extent])
        requires lies { LiesOnSome self.old extents.now }
        requires front { IsFront kept.now extents.now }
        ensures { (s : DeskState) (set : DataSet) → IsLawful s → AreVolumesOf s self.old →
            extents.now ≡ extents_named set.dsn s.sets → set.extents ≡ kept.now →
            AreVolumesOf (with_set s set) self.new }
    {
        self.keep_each(extents, kept);
    }

    // Of the extents only the kept ones stay, which are their front.
    fn keep_each(&mut self, extents: &[Extent], kept: &[Extent])
        requires apart { AreApart self.old.volumes.items }
        requires held { AllByRecursion (HoldsAll extents.now) self.old.volumes.items }
        requires front { IsFront kept.now extents.now }
        ensures groups { self.new.groups.items ≡ self.old.groups.items }
        ensures volumes { AllZip (HasChanged extents.now kept.now) self.old.volumes.items self.new.volumes.items }
    {
        for place in 0..extents.len() {
            self.keep(&extents[place], kept.get(place).copied());
        }
    }

    // Of the extent only this part of it stays, or nothing.
    fn keep(&mut self, extent: &Extent, kept: Option<Extent>)
        requires apart { AreApart self.old.volumes.items }
        requires held { AllByRecursion (HoldsAll (extent.now ∷ [])) self.old.volumes.items }
        requires part { IfSome kept (λ part. IsPartOf part extent.now) }
        ensures groups { self.new.groups.items ≡ self.old.groups.items }
        ensures volumes { AllZip (HasChanged (extent.now ∷ []) (extent_if kept)) self.old.volumes.items
            self.new.volumes.items }
    {
        match kept {
            Some(part) => self.cut(extent, &part),
            None => self.free(extent),
        }
    }

    // Frees an extent.
    fn free(&mut self, extent: &Extent)
        requires apart { AreApart self.old.volumes.items }
        requires held { AllByRecursion (HoldsAll (extent.now ∷ [])) self.old.volumes.items }
        ensures groups { self.new.groups.items ≡ self.old.groups.items }
        ensures volumes { AllZip (HasChanged (extent.now ∷ []) []) self.old.volumes.items self.new.volumes.items }
    {
        if let Some(place) = self.place_of(&extent.volser) {
            let volume = &mut self.volumes[place];
            volume.ledger.release(piece_of(extent));
        }
    }

    // Frees what is behind this part of an extent.
    fn cut(&mut self, extent: &Extent, part: &Extent)
        requires apart { AreApart self.old.volumes.items }
        requires held { AllByRecursion (HoldsAll (extent.now ∷ [])) self.old.volumes.items }
        requires part { IsPartOf part.now extent.now }
        ensures groups { self.new.groups.items ≡ self.old.groups.items }
        ensures volumes { AllZip (HasChanged (extent.now ∷ []) (part.now ∷ [])) self.old.volumes.items
            self.new.volumes.items }
    {
        if part.length == extent.length {
            return;
        }
        if let Some(place) = self.place_of(&extent.volser) {
            let volume = &mut self.volumes[place];
            volume.ledger.cut(piece_of(extent), part.length);
        }
    }
}
