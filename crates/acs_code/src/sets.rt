//! SET.
ghost use Rattle.std.specs.Prelude.{◌≡◌, ◌<◌, [], true, false, List, length, Contains, MatchOption, OnOk};
ghost use Rattle.desk_common.specs.Limits.{most_groups_set};
ghost use Rattle.dsn_mask.specs.Filter.{FilterLists};
ghost use Rattle.acs_tree.specs.Setting.{class_set, groups_behind, groups_set, is_new_group, kind_set, sets};
ghost use Rattle.acs_tree.specs.Setting.{with_group};
ghost use Rattle.acs_tree.specs.declared.kind.Kind.{Kind};
ghost use Rattle.acs_code.specs.Inner.Upward.{Does};

use crate::instr::Instr;
use crate::parts::part;
use crate::upward::Upward;
use acs_tree::{Kind, Operand, OperandForm, Ref};
use desk_common::MAX_GROUPS_SET;
use dsn_mask::{Lit, Name, Names};
use std::alloc::AllocError;

/// SET in a routine of that kind; another variable than the kind's is not set.
pub(crate) fn set(
    code: &mut Upward,
    kind: Kind,
    target: &Ref,
    values: &[Operand],
) -> Result<(), AllocError>
    ensures { OnOk result ((filters : List FilterLists) →
        Does kind filters (sets kind target.now values.now) code.old code.new) }
{
    if target.name.bytes() == kind.name() {
        set_kind(code, kind, values)
    } else {
        Ok(())
    }
}

fn set_kind(code: &mut Upward, kind: Kind, values: &[Operand]) -> Result<(), AllocError>
    ensures { OnOk result ((filters : List FilterLists) →
        Does kind filters (kind_set kind values.now) code.old code.new) }
{
    match kind {
        Kind::DataClas | Kind::StorClas | Kind::MgmtClas => set_class(code, kind, values),
        Kind::StorGrp => set_groups(code, values),
    }
}

fn set_class(code: &mut Upward, kind: Kind, values: &[Operand]) -> Result<(), AllocError>
    ensures { OnOk result ((filters : List FilterLists) →
        Does kind filters (class_set kind values.now) code.old code.new) }
{
    match values.first() {
        None => Ok(()),
        Some(value) => code.put(Instr::SetClass(part(&value.form))),
    }
}

fn set_groups(code: &mut Upward, values: &[Operand]) -> Result<(), AllocError>
    ensures { OnOk result ((kind : Kind) (filters : List FilterLists) →
        Does kind filters (groups_set values.now) code.old code.new) }
{
    code.put(Instr::SetGroups(groups(values)))
}

/// The groups that SET names.
pub fn groups(values: &[Operand]) -> Names
    ensures { result ≡ groups_behind [] values.now }
{
    let mut groups = Names::new();
    for value in values {
        add_group(&mut groups, &value.form);
    }
    groups
}

fn add_group(groups: &mut Names, form: &OperandForm)
    ensures { groups.new ≡ with_group groups.old form.now }
{
    if let OperandForm::Literal(text) = form {
        if let Some(name) = new_group(groups, text) {
            groups.push(name);
        }
    }
}

// The name that a text is, if it is one that can be added.
fn new_group(groups: &Names, text: &Lit) -> Option<Name>
    ensures { MatchOption result (is_new_group groups.now text.now ≡ false)
        (λ name. (name ≡ text.now) × (is_new_group groups.now text.now ≡ true) × (length groups.now < most_groups_set) ×
        (Contains groups.now text.now → ⊥)) }
{
    let name = Name::new(text.bytes())?;
    if groups.as_slice().len() >= MAX_GROUPS_SET {
        return None;
    }
    if groups.contains(&name) {
        return None;
    }
    Some(name)
}
