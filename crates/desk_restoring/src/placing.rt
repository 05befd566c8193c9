//! The tracks that recorded data sets hold.
ghost use Rattle.std.specs.Prelude.{◌≡◌, ◌++◌, ◌∷◌, [], List, OnOk};
ghost use Rattle.sms_construct.specs.declared.data_set.DataSet.{DataSet as Catalogued};
ghost use Rattle.desk_law.specs.State.{DeskState, with_set};
ghost use Rattle.desk_law.specs.Extents.{extents_named};
ghost use Rattle.desk_law.specs.Lawful.{IsLawful};
ghost use Rattle.desk_restoring.specs.Inner.Placing.{CanHold, CanPlace, CanPlaceAll};
ghost use Rattle.desk_restoring.specs.Inner.Replaying.{with_sets};
ghost use Rattle.sms_volumes.specs.Holding.{AreVolumesOf};

use desk_common::Shared;
use sms_construct::{DataSet, Extent};
use sms_volumes::ActiveVolumes;
use std::alloc::AllocError;
use track_ledger::Piece;

/// The data sets hold their tracks, each extent in its order.
pub fn place_all(volumes: &mut ActiveVolumes, sets: &[Shared<DataSet>]) -> Result<(), AllocError>
    requires { CanPlaceAll sets.now volumes.old }
    ensures { OnOk result ((s : DeskState) → IsLawful s → s.sets ≡ sets.now →
        AreVolumesOf (with_sets s []) volumes.old → AreVolumesOf s volumes.new) }
{
    for set in sets {
        place(volumes, set.get())?;
    }
    Ok(())
}

// The data set holds its tracks too.
fn place(volumes: &mut ActiveVolumes, set: &DataSet) -> Result<(), AllocError>
    requires { CanPlace set.now volumes.old }
    ensures { OnOk result ((s : DeskState) (front : List Catalogued) → IsLawful s → s.sets ≡ front ++ set.now ∷ [] →
        AreVolumesOf (with_sets s front) volumes.old → AreVolumesOf s volumes.new) }
{
    let extents = set.extents.as_slice();
    for extent in extents {
        hold(volumes, extent)?;
    }
    Ok(())
}

// The tracks of the extent are held too.
fn hold(volumes: &mut ActiveVolumes, extent: &Extent) -> Result<(), AllocError>
    requires { CanHold extent.now volumes.old }
    ensures { OnOk result ((s : DeskState) (set : Catalogued) → IsLawful s → AreVolumesOf s volumes.old →
        set.extents ≡ extents_named set.dsn s.sets ++ extent.now ∷ [] → AreVolumesOf (with_set s set) volumes.new) }
{
    let Some(place) = volumes.place_of(&extent.volser) else {
        unreachable!();
    };
    volumes.reserve(place)?;
    let piece = Piece {
        start: extent.start,
        length: extent.length,
    };
    volumes.install(place, &[piece]);
    Ok(())
}
