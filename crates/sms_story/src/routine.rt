// The run of one routine, and whether it stops the classification.
ghost use Rattle.std.specs.Prelude.{◌≡◌, ◌++◌, ◌||◌, IfOk, Some, is_some};
ghost use Rattle.acs_tree.specs.declared.kind.Kind.{Kind as KindOf};
ghost use Rattle.desk_law.specs.Classification.{class_of, class_stop, exit_stop, is_null};
ghost use Rattle.sms_construct.specs.Configuration.{routine_of};
ghost use Rattle.sms_story.specs.Inner.Steps.{RunsAs};
ghost use Rattle.sms_story.specs.Runs.{comes_to, has_stop, runs_of_kind};

use crate::run::{Run, Runs};
use acs_trace::follow;
use acs_tree::{Checked, Ending, Kind, Seen, Values};
use deck_meaning::Config;
use dsn_mask::Short;
use std::alloc::{AllocError, Global};

/// Runs the routine of a class, and tells whether that stops the classification.
pub fn is_stopped_by(
    alloc: Global,
    config: &Config,
    kind: Kind,
    input: &Seen<'_>,
    values: &mut Values,
    runs: &mut Runs,
) -> Result<bool, AllocError>
    ensures values { IfOk result (λ stops. values.new ≡ (comes_to config.now input.now kind values.old).values) }
    ensures stops { IfOk result (λ stops. stops ≡
        has_stop config.now kind (comes_to config.now input.now kind values.old)) }
    ensures runs { IfOk result (λ stops. runs.new ≡ runs.old ++ runs_of_kind config.now input.now kind values.old) }
{
    let ending = run_routine(alloc, config, kind, input, values, runs)?;
    Ok(is_stop(config, kind, ending, values))
}

/// Runs the routine of that kind, where there is one, and tells what happens.
pub fn run_routine(
    alloc: Global,
    config: &Config,
    kind: Kind,
    input: &Seen<'_>,
    values: &mut Values,
    runs: &mut Runs,
) -> Result<Ending, AllocError>
    ensures { IfOk result (RunsAs (routine_of kind config.now.routines) kind input.now values.old values.new
        runs.old runs.new) }
{
    // Facts for the proof; nothing changes.
    let _deck = config.deck();
    match config.source(kind) {
        None => Ok(Ending::Falls),
        Some(checked) => run_checked(alloc, checked, input, values, runs),
    }
}

fn run_checked(
    alloc: Global,
    checked: &Checked,
    input: &Seen<'_>,
    values: &mut Values,
    runs: &mut Runs,
) -> Result<Ending, AllocError>
    ensures { IfOk result (RunsAs (Some checked.now) checked.now.kind input.now values.old values.new
        runs.old runs.new) }
{
    let begins = *values;
    let trace = follow(alloc, checked, input, values)?;
    let ending = trace.ending;
    runs.push(Run {
        kind: checked.kind(),
        begins,
        events: trace.events,
        ends: *values,
        ending,
    })?;
    Ok(ending)
}

// Whether a routine of a class that ended so stops the classification.
fn is_stop(config: &Config, kind: Kind, ending: Ending, values: &Values) -> bool
    ensures { result ≡ (is_some (exit_stop kind ending) ||
        is_some (class_stop config.now kind (class_of kind values.now))) }
{
    is_exit(ending) || is_unknown(config, kind, values)
}

// Whether a routine ended with another code than 0.
fn is_exit(ending: Ending) -> bool
    ensures { (kind : KindOf) → result ≡ is_some (exit_stop kind ending) }
{
    match ending {
        Ending::Falls | Ending::Exit(0) => false,
        Ending::Exit(_) => true,
    }
}

// Whether the class of that kind is neither null nor one of the configuration.
fn is_unknown(config: &Config, kind: Kind, values: &Values) -> bool
    ensures { result ≡ is_some (class_stop config.now kind (class_of kind values.now)) }
{
    match kind {
        Kind::DataClas => is_unknown_class(config, kind, &values.dataclas),
        Kind::StorClas => is_unknown_class(config, kind, &values.storclas),
        Kind::MgmtClas => is_unknown_class(config, kind, &values.mgmtclas),
        Kind::StorGrp => false,
    }
}

fn is_unknown_class(config: &Config, kind: Kind, class: &Short) -> bool
    ensures { result ≡ is_some (class_stop config.now kind class.now) }
{
    !is_null(class) && !config.has(kind, class)
}

/// Whether the class is the null value.
pub fn is_null(class: &Short) -> bool
    ensures { result ≡ is_null class.now }
{
    class.bytes().is_empty()
}
