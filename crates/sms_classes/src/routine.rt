// The run of one routine.
ghost use Rattle.std.specs.Prelude.{◌≡◌, suc};
ghost use Rattle.std.specs.Option.{option_or};
ghost use Rattle.acs_tree.specs.Variables.{rank_of};
ghost use Rattle.desk_law.specs.Classification.{class_of, class_stop, exit_stop, meanings_of};
ghost use Rattle.sms_classes.specs.Inner.Onward.{NoneFrom, progress, run_on};

use crate::stops::{class_stop, exit_stop};
use acs_run::run;
use acs_tree::{Ending, Kind, Seen, Slate, Values};
use deck_meaning::Config;
use sms_construct::Stop;

/// Runs the routine of that kind, where there is one.
pub fn run_routine(
    config: &Config,
    kind: Kind,
    input: &Seen<'_>,
    values: &mut Values,
    slate: &mut Slate,
) -> Ending
    requires { NoneFrom (rank_of kind) slate.old }
    ensures runs { progress values.new slate.new result ≡
        run_on (meanings_of config.now) input.now kind values.old slate.old }
    ensures later_kinds { NoneFrom (suc (rank_of kind)) slate.new }
{
    // Facts for the proof; nothing changes.
    let _deck = config.deck();
    match config.code(kind) {
        None => Ending::Falls,
        Some(code) => run(code, input, values, slate),
    }
}

/// Runs the routine of a class, and tells what stops the classification behind it.
pub fn run_class(
    config: &Config,
    kind: Kind,
    input: &Seen<'_>,
    values: &mut Values,
    slate: &mut Slate,
) -> Option<Stop>
    requires { NoneFrom (rank_of kind) slate.old }
    ensures values { values.new ≡ (run_on (meanings_of config.now) input.now kind values.old slate.old).values }
    ensures slate { slate.new ≡ (run_on (meanings_of config.now) input.now kind values.old slate.old).written }
    ensures stop { let last = run_on (meanings_of config.now) input.now kind values.old slate.old in result ≡
        option_or (exit_stop kind last.ending) (class_stop config.now kind (class_of kind last.values)) }
    ensures later_kinds { NoneFrom (suc (rank_of kind)) slate.new }
{
    let ending = run_routine(config, kind, input, values, slate);
    match exit_stop(kind, ending) {
        Some(stop) => Some(stop),
        None => stop_behind(config, kind, values),
    }
}

// The stop where the class of that kind is neither null nor one of the configuration.
fn stop_behind(config: &Config, kind: Kind, values: &Values) -> Option<Stop>
    ensures { result ≡ class_stop config.now kind (class_of kind values.now) }
{
    match kind {
        Kind::DataClas => class_stop(config, kind, &values.dataclas),
        Kind::StorClas => class_stop(config, kind, &values.storclas),
        Kind::MgmtClas => class_stop(config, kind, &values.mgmtclas),
        Kind::StorGrp => None,
    }
}
