//! The present statuses as the tables have them.
ghost use Rattle.std.specs.Prelude.{◌≡◌, ◌++◌, ◌∷◌, [], List, IfOk, OnOk};
ghost use Rattle.sms_construct.specs.Configuration.{Configuration};
ghost use Rattle.sms_keeper.specs.declared.status_row.StatusRow.{StatusRow as Row};
ghost use Rattle.desk_law.specs.Activation.{statuses_under};
ghost use Rattle.sms_volumes.specs.Next.{AreNext};
ghost use Rattle.sms_volumes.specs.StatusRows.{running_statuses};

use crate::active_volumes::ActiveVolumes;
use desk_common::Items;
use sms_construct::{Status, Target};
use sms_keeper::{StatusRow, Statuses};
use std::alloc::{AllocError, Global};

// One row more.
fn push_row(rows: &mut Vec<StatusRow>, target: Target, status: Status) -> Result<(), AllocError>
    ensures { OnOk result (rows.new.items ≡ rows.old.items ++ record { target = target; status = status } ∷ []) }
{
    if rows.push(StatusRow { target, status }).is_err() {
        return Err(AllocError);
    }
    Ok(())
}

impl ActiveVolumes {
    /// The present status of each storage group and then of each volume, in their orders, or want of memory
    /// (docs/manual/records.md).
    pub fn status_rows(&self, alloc: Global) -> Result<Statuses, AllocError>
        ensures present { IfOk result (λ rows. rows ≡ running_statuses self.now) }
        ensures next { IfOk result (λ rows. (present : List Row) (config : Configuration) →
            AreNext present config self.now → rows ≡ statuses_under config present) }
    {
        let mut rows = Vec::new(alloc);
        for group in &self.groups {
            push_row(&mut rows, Target::Group(group.group.name), group.status)?;
        }
        for volume in &self.volumes {
            push_row(
                &mut rows,
                Target::Volume(volume.volume.volser),
                volume.status,
            )?;
        }
        Ok(Items::from_vec(rows))
    }
}
