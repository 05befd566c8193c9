//! What is due of a data set.
ghost use Rattle.std.specs.Prelude.{◌≡◌, option_and_then};
ghost use Rattle.std.specs.Option.{option_copied, option_or};
ghost use Rattle.sms_manage.specs.Due.{class_of, due_of, has_passed, is_releasing};

use crate::wanted::Due;
use deck_meaning::Config;
use desk_state::has_unused;
use sms_construct::{DataSet, MgmtClass};

/// What is due of a data set on a day under a configuration (docs/manual/rules.md, "Space management"). It takes no
/// memory.
pub fn due(set: &DataSet, config: &Config, day: u32) -> Due
    ensures { result ≡ due_of config.now day set.now }
{
    let class = class_of(config, set);
    if has_passed(day, set, lifetime_of(set, class)) {
        return Due::Delete;
    }
    if is_releasing(class) && has_unused(set) {
        return Due::Release;
    }
    Due::Nothing
}

// The management class of a data set, where it has one that the configuration knows.
fn class_of<'a>(config: &'a Config, set: &DataSet) -> Option<&'a MgmtClass>
    ensures { option_copied result ≡ class_of config.now set.now }
{
    match &set.mgmtclas {
        Some(name) => config.mgmt_class(name),
        None => None,
    }
}

// For how many days a data set of this class is kept, if it expires.
fn lifetime_of(set: &DataSet, class: Option<&MgmtClass>) -> Option<u32>
    ensures { result ≡ option_or set.now.retpd (option_and_then (λ class. class.expire_after)
        (option_copied class.entry)) }
{
    match set.retpd {
        Some(days) => Some(days),
        None => class?.expire_after,
    }
}

// Whether so many days have passed since the data set was made.
fn has_passed(day: u32, set: &DataSet, lifetime: Option<u32>) -> bool
    ensures { result ≡ has_passed day set.now lifetime }
{
    match lifetime {
        Some(days) => u64::from(set.day) + u64::from(days) <= u64::from(day),
        None => false,
    }
}

// Whether the class lets unused tracks be released.
fn is_releasing(class: Option<&MgmtClass>) -> bool
    ensures { result ≡ is_releasing (option_copied class.entry) }
{
    match class {
        Some(class) => class.release,
        None => false,
    }
}
