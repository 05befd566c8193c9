//! What a change does to the records.
ghost use Rattle.std.specs.Prelude.{◌≡◌, ◌↔◌, IfOk, IsTrue};
ghost use Rattle.std.specs.List.{list_all};
ghost use Rattle.sms_keeper.specs.Suits.{SuitsOp, has_status};

use crate::status_row::{StatusRow, Statuses};
use desk_common::{Items, Shared};
use dsn_mask::{Dsn, Name};
use sms_construct::{DataSet, Op, Status, Target};
use std::alloc::{AllocError, Global};

/// What a change does to the tables beside the row of its reply (docs/manual/records.md, "Effects").
#[derive(Drop)]
pub enum Effect {
    /// Nothing more.
    Nothing,
    /// The data set takes the place of the one of its name, or is added.
    PutSet(Shared<DataSet>),
    /// The data set of this name is dropped.
    DropSet(Dsn),
    /// The deck of the request is active: it is added with the number of activations, and these are the statuses
    /// of all its storage groups and volumes.
    Activated { count: u64, statuses: Statuses },
    /// The storage group or the volume has this status.
    SetStatus { target: Target, status: Status },
    /// The job's numbers below this floor are refused, and its replies below it dropped.
    Floor { job: Name, floor: u32 },
}

// Whether the target is a storage group or a volume.
fn has_status(target: &Target) -> bool
    ensures { result ≡ has_status target.now }
{
    match target {
        Target::Group(_) | Target::Volume(_) => true,
        Target::Set(_) => false,
    }
}

fn have_status(rows: &[StatusRow]) -> bool
    ensures { result ≡ list_all (λ row. has_status row.target) rows.now }
{
    rows.iter().all(|row| has_status(&row.target))
}

impl Effect {
    /// Whether a change with this op may have the effect.
    pub(crate) fn suits(&self, op: &Op) -> bool
        ensures { IsTrue result ↔ SuitsOp op.now self.now }
    {
        match self {
            Effect::Activated { statuses, .. } => {
                matches!(op, Op::Activate(_)) && have_status(statuses.as_slice())
            }
            Effect::SetStatus { target, .. } => has_status(target),
            Effect::Nothing | Effect::PutSet(_) | Effect::DropSet(_) | Effect::Floor { .. } => true,
        }
    }

    /// The same effect, or want of memory.
    pub fn copy(&self, alloc: Global) -> Result<Self, AllocError>
        ensures { IfOk result (λ copy. copy ≡ self.now) }
    {
        match self {
            Effect::Nothing => Ok(Effect::Nothing),
            Effect::PutSet(set) => Ok(Effect::PutSet(set.share()?)),
            Effect::DropSet(dsn) => Ok(Effect::DropSet(*dsn)),
            Effect::Activated { count, statuses } => Ok(Effect::Activated {
                count: *count,
                statuses: Items::from_slice(alloc, statuses.as_slice())?,
            }),
            Effect::SetStatus { target, status } => Ok(Effect::SetStatus {
                target: *target,
                status: *status,
            }),
            Effect::Floor { job, floor } => Ok(Effect::Floor {
                job: *job,
                floor: *floor,
            }),
        }
    }
}
