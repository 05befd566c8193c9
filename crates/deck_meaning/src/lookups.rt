// Constructs looked up by name, one after another; there are 256 at most.
ghost use Rattle.std.specs.Prelude.{◌≡◌, bytes_eq, find, map, option_copied};
ghost use Rattle.std.specs.List.{list_any};

use desk_common::are_same;
use sms_construct::{DataClass, MgmtClass, StorClass, StorGroup};

/// The first data class of this name.
pub fn data_class_named<'a>(classes: &'a [DataClass], name: &[u8]) -> Option<&'a DataClass>
    ensures { option_copied result ≡ find (λ class. bytes_eq name.now class.name) classes.entry.now }
{
    classes
        .iter()
        .find(|class| are_same(name, class.name.bytes()))
}

/// The first storage class of this name.
pub fn storage_class_named<'a>(classes: &'a [StorClass], name: &[u8]) -> Option<&'a StorClass>
    ensures { option_copied result ≡ find (λ class. bytes_eq name.now class.name) classes.entry.now }
{
    classes
        .iter()
        .find(|class| are_same(name, class.name.bytes()))
}

/// The first management class of this name.
pub fn management_class_named<'a>(classes: &'a [MgmtClass], name: &[u8]) -> Option<&'a MgmtClass>
    ensures { option_copied result ≡ find (λ class. bytes_eq name.now class.name) classes.entry.now }
{
    classes
        .iter()
        .find(|class| are_same(name, class.name.bytes()))
}

fn any_data_class(classes: &[DataClass], name: &[u8]) -> bool
    ensures { result ≡ list_any (λ class. bytes_eq name.now class.name) classes.now }
{
    classes
        .iter()
        .any(|class| are_same(name, class.name.bytes()))
}

fn any_storage_class(classes: &[StorClass], name: &[u8]) -> bool
    ensures { result ≡ list_any (λ class. bytes_eq name.now class.name) classes.now }
{
    classes
        .iter()
        .any(|class| are_same(name, class.name.bytes()))
}

fn any_management_class(classes: &[MgmtClass], name: &[u8]) -> bool
    ensures { result ≡ list_any (λ class. bytes_eq name.now class.name) classes.now }
{
    classes
        .iter()
        .any(|class| are_same(name, class.name.bytes()))
}

fn any_group(groups: &[StorGroup], name: &[u8]) -> bool
    ensures { result ≡ list_any (λ group. bytes_eq name.now group.name) groups.now }
{
    groups
        .iter()
        .any(|group| are_same(name, group.name.bytes()))
}

/// Whether a data class has this name.
pub fn has_data_class(classes: &[DataClass], name: &[u8]) -> bool
    ensures { result ≡ list_any (bytes_eq name.now) (map (λ class. class.name) classes.now) }
{
    any_data_class(classes, name)
}

/// Whether a storage class has this name.
pub fn has_storage_class(classes: &[StorClass], name: &[u8]) -> bool
    ensures { result ≡ list_any (bytes_eq name.now) (map (λ class. class.name) classes.now) }
{
    any_storage_class(classes, name)
}

/// Whether a management class has this name.
pub fn has_management_class(classes: &[MgmtClass], name: &[u8]) -> bool
    ensures { result ≡ list_any (bytes_eq name.now) (map (λ class. class.name) classes.now) }
{
    any_management_class(classes, name)
}

/// Whether a storage group has this name.
pub fn has_group(groups: &[StorGroup], name: &[u8]) -> bool
    ensures { result ≡ list_any (bytes_eq name.now) (map (λ group. group.name) groups.now) }
{
    any_group(groups, name)
}
