//! Classes by name.
ghost use Rattle.std.specs.Prelude.{◌≡◌, None, Some, bytes_eq, find, option_copied, option_map, if◌then◌else◌};
ghost use Rattle.sms_construct.specs.Configuration.{has_construct};
ghost use Rattle.desk_law.specs.Allocation.{class_if_any, data_class_of, has_tiers, storage_class_of};
ghost use Rattle.desk_law.specs.Classification.{class_stop};
ghost use Rattle.sms_classes.specs.Known.{known_class};

use crate::stops::is_null;
use acs_tree::Kind;
use deck_meaning::Config;
use dsn_mask::{Name, Short};
use sms_construct::{DataClass, MgmtClass, StorClass, StorGroup};

/// The data class of this name.
pub fn data_class_of<'a>(config: &'a Config, class: &Short) -> Option<&'a DataClass>
    ensures { option_copied result ≡ data_class_of config.now class.now }
{
    config.data_class_for(class)
}

fn storage_class_of<'a>(config: &'a Config, class: &Short) -> Option<&'a StorClass>
    ensures { option_copied result ≡ storage_class_of config.now class.now }
{
    config.stor_class_for(class)
}

/// Whether the order counts in which storage groups are listed for a data set of this storage class
/// (docs/manual/rules.md, "The lists").
pub fn has_tiers(config: &Config, class: &Short) -> bool
    ensures { result ≡ has_tiers (storage_class_of config.now class.now) }
{
    match storage_class_of(config, class) {
        Some(class) => class.multi_tier,
        None => false,
    }
}

/// The name of a class of this kind that isn't null and that the configuration has.
pub fn class_name(config: &Config, kind: Kind, class: &Short) -> Option<Name>
    ensures value { result ≡ known_class config.now kind class.now }
    ensures known { class_stop config.now kind class.now ≡ None → result ≡ class_if_any class.now }
{
    if is_null(class) {
        return None;
    }
    named(config, kind, class)
}

fn named(config: &Config, kind: Kind, class: &Short) -> Option<Name>
    ensures { result ≡ (if has_construct kind class.now config.now then Some class.now else None) }
{
    match kind {
        Kind::DataClas => data_class_name(config.data_class_for(class)),
        Kind::StorClas => storage_class_name(config.stor_class_for(class)),
        Kind::MgmtClas => management_class_name(config.mgmt_class_for(class)),
        Kind::StorGrp => group_name(group_named(config.groups(), class)),
    }
}

fn data_class_name(class: Option<&DataClass>) -> Option<Name>
    ensures { result ≡ option_map (λ class. class.name) (option_copied class.entry) }
{
    Some(class?.name)
}

fn storage_class_name(class: Option<&StorClass>) -> Option<Name>
    ensures { result ≡ option_map (λ class. class.name) (option_copied class.entry) }
{
    Some(class?.name)
}

fn management_class_name(class: Option<&MgmtClass>) -> Option<Name>
    ensures { result ≡ option_map (λ class. class.name) (option_copied class.entry) }
{
    Some(class?.name)
}

fn group_name(group: Option<&StorGroup>) -> Option<Name>
    ensures { result ≡ option_map (λ group. group.name) (option_copied group.entry) }
{
    Some(group?.name)
}

fn group_named<'a>(groups: &'a [StorGroup], name: &Short) -> Option<&'a StorGroup>
    ensures { option_copied result ≡ find (λ group. bytes_eq name.now group.name) groups.entry.now }
{
    let name = name.bytes();
    groups.iter().find(|group| name == group.name.bytes())
}
