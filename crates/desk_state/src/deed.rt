//! What a decision does to the running state.
ghost use Rattle.std.specs.Prelude.{◌≡◌, IfOk};
ghost use Rattle.desk_state.specs.Deeds.{effect_of};

use deck_meaning::Config;
use desk_common::{Items, Shared};
use dsn_mask::{Dsn, Name};
use sms_construct::{DataSet, Status, Target};
use sms_keeper::{Effect, Statuses};
use sms_volumes::ActiveVolumes;
use std::alloc::{AllocError, Global};
use track_ledger::Grant;

/// What a decision does to the running state; all room for it was taken when it was made.
#[derive(Drop)]
pub enum Deed {
    /// Nothing.
    Nothing,
    /// The data set gets these pieces of the volume at this place; it is put in place of the one of its name.
    Get {
        set: Shared<DataSet>,
        place: usize,
        pieces: Grant,
    },
    /// The data set, which lies as before, is put in place of the one of its name.
    Note {
        set: Shared<DataSet>,
    },
    /// The data set, which keeps the front of its tracks, is put in place of the one of its name.
    Keep {
        set: Shared<DataSet>,
    },
    /// The data set of this name is dropped.
    Remove {
        dsn: Dsn,
    },
    /// The configuration becomes active, with these volumes and these statuses; so many activations there are then.
    Become {
        count: u64,
        config: Shared<Config>,
        volumes: ActiveVolumes,
        statuses: Statuses,
    },
    /// The storage group or the volume gets this status.
    Vary {
        target: Target,
        status: Status,
    },
    /// The floor of the job becomes this one.
    Raise {
        job: Name,
        floor: u32,
    },
}

impl Deed {
    /// What the deed does to the records, or want of memory.
    pub fn effect(&self, alloc: Global) -> Result<Effect, AllocError>
        ensures { IfOk result (λ effect. effect ≡ effect_of self.now) }
    {
        match self {
            Deed::Nothing => Ok(Effect::Nothing),
            Deed::Get { set, .. } | Deed::Note { set } | Deed::Keep { set } => {
                Ok(Effect::PutSet(set.share()?))
            }
            Deed::Remove { dsn } => Ok(Effect::DropSet(*dsn)),
            Deed::Become {
                count,
                statuses,
                ..
            } => Ok(Effect::Activated {
                count: *count,
                statuses: Items::from_slice(alloc, statuses.as_slice())?,
            }),
            Deed::Vary { target, status } => Ok(Effect::SetStatus {
                target: *target,
                status: *status,
            }),
            Deed::Raise { job, floor } => Ok(Effect::Floor {
                job: *job,
                floor: *floor,
            }),
        }
    }
}
