//! The classification of a new data set.
ghost use Rattle.std.specs.Prelude.{◌≡◌};
ghost use Rattle.dsn_mask.specs.Name.{IsShort};
ghost use Rattle.desk_law.specs.Classification.{begin, class_or_null, classes_of};
ghost use Rattle.sms_classes.specs.Known.{AreKnown};

use crate::classified::Classified;
use crate::knowing::classes_are_known;
use crate::onward::from_data_class;
use acs_tree::{Slate, Values};
use deck_meaning::Config;
use dsn_mask::{Name, Names, Short};
use sms_construct::{Alloc, Stop};

/// What the routines of a configuration give the new data set of an ALLOC of this job (docs/manual/rules.md,
/// "Classification"). It takes no memory. What was on the slate is gone; what the routines wrote is on it
/// afterwards.
pub fn classify(config: &Config, job: &Name, alloc: &Alloc, slate: &mut Slate) -> Classified
    ensures values { result.values ≡ (classes_of config.now job.now alloc.now).values }
    ensures stop { result.stop ≡ (classes_of config.now job.now alloc.now).stop }
    ensures slate { slate.new ≡ (classes_of config.now job.now alloc.now).written }
    ensures known { result.stop ≡ Stop.Done → AreKnown config.now result.values }
{
    // A fact for the proof; nothing changes.
    classes_are_known(config);
    slate.clear();
    let input = alloc.input.under(job, config.system(), config.sysplex());
    let mut values = named_classes(alloc);
    let stop = from_data_class(config, &input, &mut values, slate);
    Classified { values, stop }
}

// The classes that the request names, and no storage group.
fn named_classes(alloc: &Alloc) -> Values
    ensures { result ≡ (begin alloc.now).values }
{
    Values {
        dataclas: class_or_null(alloc.dataclas),
        storclas: class_or_null(alloc.storclas),
        mgmtclas: class_or_null(alloc.mgmtclas),
        groups: Names::new(),
    }
}

fn class_or_null(class: Option<Name>) -> Short
    ensures { result ≡ class_or_null class }
{
    match class {
        Some(name) => short(name.bytes()),
        None => Short::null(),
    }
}

fn short(bytes: &[u8]) -> Short
    requires { IsShort bytes.now }
    ensures { result ≡ bytes.now }
{
    Short::new(bytes).unwrap()
}
