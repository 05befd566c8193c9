// What is found on the constructs of a configuration.
ghost use Rattle.std.specs.Prelude.{◌≡◌, ◌++◌, [], OnOk, Some, bytes_eq, flat_map, map, option_copied};
ghost use Rattle.toml.specs.View.{table_view};
ghost use Rattle.sms_construct.specs.Configuration.{routine_of};
ghost use Rattle.sms_lint.specs.DeckFound.{found_on_constructs, never_expires, never_expires_if, never_set};
ghost use Rattle.sms_lint.specs.DeckFound.{never_set_by, never_set_in, never_set_ones};

use crate::deck_finding::DeckFinding;
use crate::groups::push_not_enabled;
use crate::names::construct_names;
use acs_lint::{may_be_set, set_values};
use acs_tree::{Checked, Kind, Operand};
use deck_meaning::Config;
use desk_common::are_same;
use dsn_mask::Name;
use sms_construct::MgmtClass;
use std::alloc::{AllocError, Global};
use toml::Table;

/// What is found on the constructs.
pub fn push_constructs(
    alloc: Global,
    found: &mut Vec<DeckFinding>,
    config: &Config,
    top: &Table,
) -> Result<(), AllocError>
    ensures { OnOk result (found.new.items ≡ found.old.items ++ found_on_constructs config.now (table_view top.now)) }
{
    push_never_set_ones(alloc, found, config, top)?;
    push_not_enabled(found, config.groups(), config.volumes())?;
    let names = construct_names(alloc, top, Kind::MgmtClas)?;
    push_never_expiring(found, config, &names)
}

// The constructs that their routines don't set.
fn push_never_set_ones(
    alloc: Global,
    found: &mut Vec<DeckFinding>,
    config: &Config,
    top: &Table,
) -> Result<(), AllocError>
    ensures { OnOk result (found.new.items ≡ found.old.items ++ never_set_ones config.now (table_view top.now)) }
{
    push_never_set_in(alloc, found, config, top, Kind::DataClas)?;
    push_never_set_in(alloc, found, config, top, Kind::StorClas)?;
    push_never_set_in(alloc, found, config, top, Kind::MgmtClas)?;
    push_never_set_in(alloc, found, config, top, Kind::StorGrp)
}

// Those of a kind.
fn push_never_set_in(
    alloc: Global,
    found: &mut Vec<DeckFinding>,
    config: &Config,
    top: &Table,
    kind: Kind,
) -> Result<(), AllocError>
    ensures { OnOk result (found.new.items ≡ found.old.items ++ never_set_in config.now (table_view top.now) kind) }
{
    let names = construct_names(alloc, top, kind)?;
    push_never_set_of(alloc, found, config, kind, &names)
}

// Those of these names.
fn push_never_set_of(
    alloc: Global,
    found: &mut Vec<DeckFinding>,
    config: &Config,
    kind: Kind,
    names: &[Name],
) -> Result<(), AllocError>
    ensures { OnOk result (found.new.items ≡ found.old.items ++
        never_set_by kind (routine_of kind config.now.routines) names.now) }
{
    match config.source(kind) {
        None => Ok(()),
        Some(checked) => push_never_set_by(alloc, found, kind, checked, names),
    }
}

// Those that this routine doesn't set.
fn push_never_set_by(
    alloc: Global,
    found: &mut Vec<DeckFinding>,
    kind: Kind,
    checked: &Checked,
    names: &[Name],
) -> Result<(), AllocError>
    ensures { OnOk result (found.new.items ≡ found.old.items ++
        never_set_by kind (Some checked.now) names.now) }
{
    let values = set_values(alloc, checked.tree())?;
    push_unset(found, kind, &values, names)
}

fn push_unset(
    found: &mut Vec<DeckFinding>,
    kind: Kind,
    values: &[&Operand],
    names: &[Name],
) -> Result<(), AllocError>
    ensures { OnOk result (found.new.items ≡ found.old.items ++
        flat_map (never_set kind (map (λ value. value.now) values.now)) names.now) }
{
    for name in names {
        push_if_unset(found, kind, values, name)?;
    }
    Ok(())
}

fn push_if_unset(
    found: &mut Vec<DeckFinding>,
    kind: Kind,
    values: &[&Operand],
    name: &Name,
) -> Result<(), AllocError>
    ensures { OnOk result (found.new.items ≡ found.old.items ++
        never_set kind (map (λ value. value.now) values.now) name.now) }
{
    if may_be_set(name.bytes(), values) || is_null(name) {
        return Ok(());
    }
    found.push(DeckFinding::NeverSet { kind, name: *name })?;
    Ok(())
}

fn is_null(name: &Name) -> bool
    ensures { result ≡ bytes_eq name.now [] }
{
    are_same(name.bytes(), b"")
}

// The management classes of these names by which nothing expires.
fn push_never_expiring(
    found: &mut Vec<DeckFinding>,
    config: &Config,
    names: &[Name],
) -> Result<(), AllocError>
    ensures { OnOk result (found.new.items ≡ found.old.items ++ flat_map (never_expires config.now) names.now) }
{
    for name in names {
        push_if_named(found, config, name)?;
    }
    Ok(())
}

// The management class of this name, if nothing expires by it.
fn push_if_named(
    found: &mut Vec<DeckFinding>,
    config: &Config,
    name: &Name,
) -> Result<(), AllocError>
    ensures { OnOk result (found.new.items ≡ found.old.items ++ never_expires config.now name.now) }
{
    push_if_unending(found, config.mgmt_class(name))
}

fn push_if_unending(
    found: &mut Vec<DeckFinding>,
    class: Option<&MgmtClass>,
) -> Result<(), AllocError>
    ensures { OnOk result (found.new.items ≡ found.old.items ++ never_expires_if (option_copied class.entry)) }
{
    if let Some(class) = class {
        if class.expire_after.is_none() {
            found.push(DeckFinding::NeverExpires(class.name))?;
        }
    }
    Ok(())
}
