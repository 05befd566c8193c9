// What stops a classification.
ghost use Rattle.std.specs.Prelude.{◌≡◌};
ghost use Rattle.desk_law.specs.Classification.{class_stop, exit_stop, is_null};
ghost use Rattle.sms_classes.specs.Inner.Onward.{groups_stop};

use acs_tree::{Ending, Kind};
use deck_meaning::Config;
use dsn_mask::{Names, Short};
use sms_construct::Stop;

/// The stop where a routine ended with another code than 0.
pub fn exit_stop(kind: Kind, ending: Ending) -> Option<Stop>
    ensures { result ≡ exit_stop kind ending }
{
    match ending {
        Ending::Falls | Ending::Exit(0) => None,
        Ending::Exit(code) => Some(Stop::Exit { kind, code }),
    }
}

/// The stop where a class is neither null nor one of the configuration.
pub fn class_stop(config: &Config, kind: Kind, class: &Short) -> Option<Stop>
    ensures { result ≡ class_stop config.now kind class.now }
{
    if is_null(class) || config.has(kind, class) {
        return None;
    }
    Some(Stop::Unknown { kind, name: *class })
}

/// How it ends behind the storage group routine.
pub fn groups_stop(groups: &Names) -> Stop
    ensures { result ≡ groups_stop groups.now }
{
    match groups.as_slice() {
        [] => Stop::NoGroup,
        [_, ..] => Stop::Done,
    }
}

pub fn is_null(class: &Short) -> bool
    ensures { result ≡ is_null class.now }
{
    class.bytes().is_empty()
}
