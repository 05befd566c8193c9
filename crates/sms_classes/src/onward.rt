// A classification from one of its routines on.
ghost use Rattle.std.specs.Prelude.{◌≡◌};
ghost use Rattle.desk_law.specs.Classification.{meanings_of};
ghost use Rattle.sms_classes.specs.Inner.Onward.{NoneFrom, classes, from_data_class, from_groups};
ghost use Rattle.sms_classes.specs.Inner.Onward.{from_management_class, from_storage_class};

use crate::routine::{run_class, run_routine};
use crate::stops::{exit_stop, groups_stop, is_null};
use acs_tree::{Kind, Seen, Slate, Values};
use deck_meaning::Config;
use sms_construct::Stop;

/// Runs the four routines in their order until something stops the classification, and tells how it ends.
pub fn from_data_class(
    config: &Config,
    input: &Seen<'_>,
    values: &mut Values,
    slate: &mut Slate,
) -> Stop
    requires { NoneFrom 0 slate.old }
    ensures { classes values.new slate.new result ≡ from_data_class config.now
        (meanings_of config.now) input.now values.old slate.old }
{
    match run_class(config, Kind::DataClas, input, values, slate) {
        Some(stop) => stop,
        None => from_storage_class(config, input, values, slate),
    }
}

fn from_storage_class(
    config: &Config,
    input: &Seen<'_>,
    values: &mut Values,
    slate: &mut Slate,
) -> Stop
    requires { NoneFrom 1 slate.old }
    ensures { classes values.new slate.new result ≡ from_storage_class config.now
        (meanings_of config.now) input.now values.old slate.old }
{
    match run_class(config, Kind::StorClas, input, values, slate) {
        Some(stop) => stop,
        None if is_null(&values.storclas) => Stop::Unmanaged,
        None => from_management_class(config, input, values, slate),
    }
}

fn from_management_class(
    config: &Config,
    input: &Seen<'_>,
    values: &mut Values,
    slate: &mut Slate,
) -> Stop
    requires { NoneFrom 2 slate.old }
    ensures { classes values.new slate.new result ≡ from_management_class config.now
        (meanings_of config.now) input.now values.old slate.old }
{
    match run_class(config, Kind::MgmtClas, input, values, slate) {
        Some(stop) => stop,
        None => from_groups(config, input, values, slate),
    }
}

fn from_groups(config: &Config, input: &Seen<'_>, values: &mut Values, slate: &mut Slate) -> Stop
    requires { NoneFrom 3 slate.old }
    ensures { classes values.new slate.new result ≡
        from_groups (meanings_of config.now) input.now values.old slate.old }
{
    let ending = run_routine(config, Kind::StorGrp, input, values, slate);
    match exit_stop(Kind::StorGrp, ending) {
        Some(stop) => stop,
        None => groups_stop(&values.groups),
    }
}
