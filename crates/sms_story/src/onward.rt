// The runs of a classification from one of its routines on.
ghost use Rattle.std.specs.Prelude.{◌≡◌, ◌++◌, OnOk};
ghost use Rattle.acs_tree.specs.declared.kind.Kind.TheVariants.{StorGrp};
ghost use Rattle.sms_story.specs.Runs.{from_data_class, from_management_class, from_storage_class, runs_of_kind};

use crate::routine::{is_null, is_stopped_by, run_routine};
use crate::run::Runs;
use acs_tree::{Kind, Seen, Values};
use deck_meaning::Config;
use std::alloc::{AllocError, Global};

/// Runs the four routines in their order until something stops the classification, and tells what happens.
pub fn from_data_class(
    alloc: Global,
    config: &Config,
    input: &Seen<'_>,
    values: &mut Values,
    runs: &mut Runs,
) -> Result<(), AllocError>
    ensures { OnOk result (runs.new ≡ runs.old ++ from_data_class config.now input.now values.old) }
{
    if is_stopped_by(alloc, config, Kind::DataClas, input, values, runs)? {
        return Ok(());
    }
    from_storage_class(alloc, config, input, values, runs)
}

fn from_storage_class(
    alloc: Global,
    config: &Config,
    input: &Seen<'_>,
    values: &mut Values,
    runs: &mut Runs,
) -> Result<(), AllocError>
    ensures { OnOk result (runs.new ≡ runs.old ++ from_storage_class config.now input.now values.old) }
{
    let stops = is_stopped_by(alloc, config, Kind::StorClas, input, values, runs)?;
    if stops || is_null(&values.storclas) {
        return Ok(());
    }
    from_management_class(alloc, config, input, values, runs)
}

fn from_management_class(
    alloc: Global,
    config: &Config,
    input: &Seen<'_>,
    values: &mut Values,
    runs: &mut Runs,
) -> Result<(), AllocError>
    ensures { OnOk result (runs.new ≡ runs.old ++ from_management_class config.now input.now values.old) }
{
    if is_stopped_by(alloc, config, Kind::MgmtClas, input, values, runs)? {
        return Ok(());
    }
    run_routine(alloc, config, Kind::StorGrp, input, values, runs)?;
    Ok(())
}
