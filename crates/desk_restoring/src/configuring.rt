//! The volumes of a configuration with recorded statuses.
ghost use Rattle.std.specs.Prelude.{IfOk, IfSome};
ghost use Rattle.std.specs.List.{AllByRecursion};
ghost use Rattle.sms_construct.specs.Configuration.{IsConfiguration};
ghost use Rattle.desk_law.specs.State.{DeskState, start_of};
ghost use Rattle.desk_law.specs.Activation.{activated};
ghost use Rattle.desk_law.specs.Lawful.{IsLawful};
ghost use Rattle.desk_law.specs.Records.{empty_opening};
ghost use Rattle.desk_restoring.specs.Inner.Replaying.{IsAllowed, fresh_state, statuses_varied, with_statuses};
ghost use Rattle.sms_volumes.specs.Holding.{AreVolumesOf};

use deck_meaning::Config;
use sms_keeper::StatusRow;
use sms_volumes::ActiveVolumes;
use std::alloc::{AllocError, Global};

/// The volumes of this configuration, if there is one, with these statuses; all their tracks are free.
pub fn volumes_under(
    alloc: Global,
    config: &Option<Config>,
    rows: &[StatusRow],
) -> Result<ActiveVolumes, AllocError>
    requires config { IfSome config.now IsConfiguration }
    requires rows { AllByRecursion IsAllowed rows.now }
    ensures { IfOk result
        (AreVolumesOf (with_statuses (fresh_state config.now)
        (statuses_varied rows.now (fresh_state config.now).statuses))) }
{
    let mut volumes = fresh_volumes(alloc, config)?;
    vary_each(&mut volumes, rows);
    Ok(volumes)
}

// The volumes of the configuration with the statuses of its deck.
fn fresh_volumes(alloc: Global, config: &Option<Config>) -> Result<ActiveVolumes, AllocError>
    requires { IfSome config.now IsConfiguration }
    ensures { IfOk result (AreVolumesOf (fresh_state config.now)) }
{
    match config {
        Some(config) => activated_volumes(alloc, config),
        None => Ok(ActiveVolumes::none(alloc)),
    }
}

fn activated_volumes(alloc: Global, config: &Config) -> Result<ActiveVolumes, AllocError>
    requires { IsConfiguration config.now }
    ensures { IfOk result (AreVolumesOf (activated (start_of empty_opening) config.now)) }
{
    let mut none = ActiveVolumes::none(alloc);
    let mut volumes = none.under(alloc, config)?;
    volumes.take_over(&mut none);
    Ok(volumes)
}

// The target of each row gets its status.
fn vary_each(volumes: &mut ActiveVolumes, rows: &[StatusRow])
    requires { AllByRecursion IsAllowed rows.now }
    ensures { (s : DeskState) → IsLawful s → AreVolumesOf s volumes.old →
        AreVolumesOf (with_statuses s (statuses_varied rows.now s.statuses)) volumes.new }
{
    for row in rows {
        volumes.vary(&row.target, row.status);
    }
}
