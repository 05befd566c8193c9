//! USED, DELETE and RELEASE.
ghost use Rattle.std.specs.Prelude.{◌≡◌, ◌-◌, ◌<◌, ◌^◌, nat_lt, IfOk, IfSome, length};
ghost use Rattle.std.specs.Option.{option_copied};
ghost use Rattle.sms_construct.specs.declared.data_set.DataSet.{DataSet as Catalogued};
ghost use Rattle.desk_law.specs.State.{DeskState};
ghost use Rattle.desk_law.specs.Lawful.{IsLawful};
ghost use Rattle.desk_law.specs.Deletion.{DeleteRule};
ghost use Rattle.desk_law.specs.Extents.{tracks_of_set, with_extents};
ghost use Rattle.desk_law.specs.Releasing.{ReleaseRule, kept_of, tracks_kept};
ghost use Rattle.desk_law.specs.Usage.{UsedRule};
ghost use Rattle.desk_state.specs.Answering.{Answers};
ghost use Rattle.desk_state.specs.Catalog.{set_in};
ghost use Rattle.desk_state.specs.Deeds.{IsPossible};
ghost use Rattle.desk_state.specs.Standing.{IsRunning, IsSomeState};

use crate::decision::Decision;
use crate::deed::Deed;
use crate::extents::{frees_any, front_of, rounded_up, tracks_of, with_extents};
use crate::running::Running;
use desk_common::{Items, Shared, TRACKS_IN_CYLINDER};
use dsn_mask::Dsn;
use sms_construct::{DataSet, Reply, Unit};
use std::alloc::{AllocError, Global};

impl Running {
    // The catalogued data set of this name.
    fn found(&self, dsn: &Dsn) -> Option<&Shared<DataSet>>
        requires { IsSomeState self.now }
        ensures found { option_copied result ≡ set_in dsn.now self.now.catalog.sets }
        ensures few { IfSome (set_in dsn.now self.now.catalog.sets)
            (λ (set : Catalogued). length set.extents < 2 ^ 32) }
    {
        self.catalog.get(dsn)
    }

    /// What USED is answered (docs/manual/rules.md, "USED"); `tracks` are those that the data set uses.
    pub(crate) fn decide_used(&self, dsn: &Dsn, tracks: u32) -> Result<Decision, AllocError>
        requires { IsSomeState self.now }
        ensures answers { IfOk result (λ made. (s : DeskState) → IsLawful s → IsRunning s self.now →
            Answers s self.now (UsedRule s dsn.now tracks) made) }
        ensures possible { IfOk result (λ made. IsPossible self.now made.deed) }
    {
        let Some(set) = self.found(dsn) else {
            return Ok(Decision::quiet(Reply::NotFound));
        };
        let set = set.get();
        let granted = tracks_of_set(set);
        if granted < u64::from(tracks) {
            return Ok(Decision::quiet(Reply::PastGrant { granted }));
        }
        Ok(Decision {
            reply: Reply::Noted,
            deed: Deed::Note {
                set: noted(self.alloc, set, tracks)?,
            },
        })
    }

    /// What DELETE is answered (docs/manual/rules.md, "DELETE").
    pub(crate) fn decide_delete(&self, dsn: &Dsn) -> Decision
        requires { IsSomeState self.now }
        ensures answers { (s : DeskState) → IsLawful s → IsRunning s self.now →
            Answers s self.now (DeleteRule s dsn.now) result }
        ensures possible { IsPossible self.now result.deed }
    {
        let Some(set) = self.found(dsn) else {
            return Decision::quiet(Reply::NotFound);
        };
        Decision {
            reply: Reply::Deleted {
                tracks: tracks_of_set(set.get()),
            },
            deed: Deed::Remove { dsn: *dsn },
        }
    }

    /// What RELEASE is answered (docs/manual/rules.md, "RELEASE").
    pub(crate) fn decide_release(&self, dsn: &Dsn) -> Result<Decision, AllocError>
        requires { IsSomeState self.now }
        ensures answers { IfOk result (λ made. (s : DeskState) → IsLawful s → IsRunning s self.now →
            Answers s self.now (ReleaseRule s dsn.now) made) }
        ensures possible { IfOk result (λ made. IsPossible self.now made.deed) }
    {
        let Some(set) = self.found(dsn) else {
            return Ok(Decision::quiet(Reply::NotFound));
        };
        let set = set.get();
        let kept = kept_of(self.alloc, set)?;
        Ok(Decision {
            reply: Reply::Released {
                tracks: freed(set, kept.get()),
            },
            deed: Deed::Keep { set: kept },
        })
    }
}

/// Whether RELEASE would free a track of the data set (docs/manual/rules.md, "RELEASE"). It takes no memory.
pub fn has_unused(set: &DataSet) -> bool
    ensures { result ≡ nat_lt (tracks_of_set (kept_of set.now)) (tracks_of_set set.now) }
{
    frees_any(set.extents.as_slice(), tracks_kept(set))
}

// The tracks of a data set.
fn tracks_of_set(set: &DataSet) -> u64
    requires { length set.now.extents < 2 ^ 32 }
    ensures { result ≡ tracks_of_set set.now }
{
    tracks_of(set.extents.as_slice())
}

// The data set, of which so many tracks are used.
fn noted(alloc: Global, set: &DataSet, tracks: u32) -> Result<Shared<DataSet>, AllocError>
    ensures { IfOk result (λ noted. noted ≡ with_extents set.now tracks set.now.extents) }
{
    let extents = Items::from_slice(alloc, set.extents.as_slice())?;
    with_extents(alloc, set, tracks, extents)
}

// The data set with the tracks that it keeps.
fn kept_of(alloc: Global, set: &DataSet) -> Result<Shared<DataSet>, AllocError>
    ensures { IfOk result (λ kept. kept ≡ kept_of set.now) }
{
    let front = front_of(alloc, set.extents.as_slice(), tracks_kept(set))?;
    with_extents(alloc, set, set.used, front)
}

// The tracks that a data set doesn't keep.
fn freed(set: &DataSet, kept: &DataSet) -> u64
    requires few { length set.now.extents < 2 ^ 32 }
    requires kept { kept.now ≡ kept_of set.now }
    ensures { result ≡ tracks_of_set set.now - tracks_of_set (kept_of set.now) }
{
    tracks_of_set(set) - tracks_of_set(kept)
}

// The tracks that a data set keeps: those that it uses, at least one, in whole units.
fn tracks_kept(set: &DataSet) -> u64
    ensures { result ≡ tracks_kept set.now }
{
    let unit = match set.unit {
        Unit::Trk => 1,
        Unit::Cyl => TRACKS_IN_CYLINDER as u64,
    };
    rounded_up(unit, u64::from(set.used.max(1)))
}
