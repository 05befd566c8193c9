//! One comparison.
ghost use Rattle.std.specs.Prelude.{◌≡◌, ◌&&◌, List, not};
ghost use Rattle.std.specs.List.{list_any, list_all};
ghost use Rattle.dsn_mask.specs.Filter.{FilterLists};
ghost use Rattle.dsn_mask.specs.MaskTest.{is_empty};
ghost use Rattle.acs_tree.specs.declared.input.Input.{Input};
ghost use Rattle.acs_tree.specs.declared.values.Values.{Values};
ghost use Rattle.acs_tree.specs.Compares.{compares, counted, groups_or_null, is_that_text, number_beside};
ghost use Rattle.acs_tree.specs.Compares.{number_compares, numbers_compare, text_equals, texts_compare};
ghost use Rattle.acs_code.specs.Machine.{probe_holds, right_comparand, slot_value};
ghost use Rattle.acs_code.specs.declared.field.Field.TheVariants.{Dsn, Hlq, Llq};
ghost use Rattle.acs_code.specs.Fields.{field_of};
ghost use Rattle.acs_run.specs.Inner.Memos.{Knows};
ghost use Rattle.acs_run.specs.Inner.Seen.{seen};

use crate::memo::Memo;
use crate::passing::passes;
use crate::short::{of_name, of_volser};
use crate::value::Value;
use crate::values::{named_value, number, text, value};
use acs_code::{Field, Probe, Right, Slot};
use acs_tree::{Compare, Seen, Values};
use dsn_mask::{FilterIndex, Short, Volser};

/// Whether a comparison holds. Nothing is remembered of it, so it may be asked for outside a run.
pub fn probe_holds(
    filters: &[FilterIndex],
    probe: &Probe,
    input: &Seen<'_>,
    values: &Values,
) -> bool
    ensures { result ≡ probe_holds filters.now probe.now input.now values.now }
{
    value_holds(
        filters,
        Field::named(&probe.left.name),
        probe,
        input,
        values,
    )
}

/// Whether the probe holds, whose left side reads the field.
pub(crate) fn holds(
    filters: &[FilterIndex],
    left: Field,
    probe: &Probe,
    input: &Seen<'_>,
    values: &Values,
    memo: &mut Memo,
) -> bool
    requires left { left ≡ field_of probe.now.left.name }
    requires knows { Knows filters.now input.now.dsn memo.old }
    ensures holds { result ≡ probe_holds filters.now probe.now input.now values.now }
    ensures knows { Knows filters.now input.now.dsn memo.new }
{
    match left {
        Field::Text(field) => {
            let text = text(field, probe.left.index, input, values);
            texts_compare(probe.op, equals(filters, &probe.right, input, values, text))
        }
        Field::Number(field) => number_holds(number(field, input), probe, input, values),
        Field::Size => number_holds(input.amounts().size, probe, input, values),
        Field::MaxSize => number_holds(input.amounts().maxsize, probe, input, values),
        Field::Dsn => name_holds(filters, probe, input, values, memo),
        Field::Hlq => first_holds(filters, probe, input, values, memo),
        Field::Llq => last_holds(filters, probe, input, values, memo),
        _ => value_holds(filters, left, probe, input, values),
    }
}

// A number on the left.
fn number_holds(left: u64, probe: &Probe, input: &Seen<'_>, values: &Values) -> bool
    ensures { (filters : List FilterLists) → result ≡
        number_compares probe.now.op left (number_beside input.now values.now (right_comparand filters probe.now.right)) }
{
    number_compares(probe.op, left, number_beside(&probe.right, input, values))
}

// The name of the data set, or a qualifier of it, on the left.
fn name_holds(
    filters: &[FilterIndex],
    probe: &Probe,
    input: &Seen<'_>,
    values: &Values,
    memo: &mut Memo,
) -> bool
    requires name { field_of probe.now.left.name ≡ Dsn }
    requires knows { Knows filters.now input.now.dsn memo.old }
    ensures holds { result ≡ probe_holds filters.now probe.now input.now values.now }
    ensures knows { Knows filters.now input.now.dsn memo.new }
{
    match (&probe.right, probe.left.index) {
        (Right::Filter(place), 0) => {
            texts_compare(probe.op, memo.name_passes(filters, *place, input.dsn()))
        }
        (_, 0) => whole_holds(filters, probe, input, values, memo),
        _ => value_holds(filters, Field::Dsn, probe, input, values),
    }
}

fn whole_holds(
    filters: &[FilterIndex],
    probe: &Probe,
    input: &Seen<'_>,
    values: &Values,
    memo: &mut Memo,
) -> bool
    requires name { field_of probe.now.left.name ≡ Dsn }
    requires whole { probe.now.left.index ≡ 0 }
    requires knows { Knows filters.now input.now.dsn memo.old }
    ensures holds { result ≡ probe_holds filters.now probe.now input.now values.now }
    ensures knows { Knows filters.now input.now.dsn memo.new }
{
    memo.learn_whole(input.dsn());
    match &memo.whole {
        Some(text) => texts_compare(probe.op, equals(filters, &probe.right, input, values, text)),
        None => value_holds(filters, Field::Dsn, probe, input, values),
    }
}

// The first qualifier on the left.
fn first_holds(
    filters: &[FilterIndex],
    probe: &Probe,
    input: &Seen<'_>,
    values: &Values,
    memo: &mut Memo,
) -> bool
    requires name { field_of probe.now.left.name ≡ Hlq }
    requires knows { Knows filters.now input.now.dsn memo.old }
    ensures holds { result ≡ probe_holds filters.now probe.now input.now values.now }
    ensures knows { Knows filters.now input.now.dsn memo.new }
{
    match &probe.right {
        Right::Filter(place) => {
            texts_compare(probe.op, memo.first_passes(filters, *place, input.dsn()))
        }
        _ => first_text_holds(filters, probe, input, values, memo),
    }
}

fn first_text_holds(
    filters: &[FilterIndex],
    probe: &Probe,
    input: &Seen<'_>,
    values: &Values,
    memo: &mut Memo,
) -> bool
    requires name { field_of probe.now.left.name ≡ Hlq }
    requires knows { Knows filters.now input.now.dsn memo.old }
    ensures holds { result ≡ probe_holds filters.now probe.now input.now values.now }
    ensures knows { Knows filters.now input.now.dsn memo.new }
{
    memo.learn_first(input.dsn());
    match &memo.first {
        Some(text) => texts_compare(probe.op, equals(filters, &probe.right, input, values, text)),
        None => value_holds(filters, Field::Hlq, probe, input, values),
    }
}

// The last qualifier on the left.
fn last_holds(
    filters: &[FilterIndex],
    probe: &Probe,
    input: &Seen<'_>,
    values: &Values,
    memo: &mut Memo,
) -> bool
    requires name { field_of probe.now.left.name ≡ Llq }
    requires knows { Knows filters.now input.now.dsn memo.old }
    ensures holds { result ≡ probe_holds filters.now probe.now input.now values.now }
    ensures knows { Knows filters.now input.now.dsn memo.new }
{
    memo.learn_last(input.dsn());
    match &memo.last {
        Some(text) => texts_compare(probe.op, equals(filters, &probe.right, input, values, text)),
        None => value_holds(filters, Field::Llq, probe, input, values),
    }
}

// By the value on the left.
fn value_holds(
    filters: &[FilterIndex],
    left: Field,
    probe: &Probe,
    input: &Seen<'_>,
    values: &Values,
) -> bool
    requires { left ≡ field_of probe.now.left.name }
    ensures { result ≡ probe_holds filters.now probe.now input.now values.now }
{
    let left = value(left, probe.left.index, input, values);
    compares(filters, probe.op, &left, &probe.right, input, values)
}

fn compares(
    filters: &[FilterIndex],
    op: Compare,
    left: &Value,
    right: &Right,
    input: &Seen<'_>,
    values: &Values,
) -> bool
    ensures { result ≡ compares input.now values.now op (seen input.now values.now left.now)
        (right_comparand filters.now right.now) }
{
    match left {
        Value::Text(text) => texts_compare(op, equals(filters, right, input, values, text)),
        Value::Number(number) => number_compares(op, *number, number_beside(right, input, values)),
        Value::Size(kilobytes) => {
            number_compares(op, *kilobytes, number_beside(right, input, values))
        }
        Value::AnyVolume => texts_compare(op, any_volume(filters, right, input, values)),
        Value::AllVolumes => texts_compare(op, all_volumes(filters, right, input, values)),
        Value::StorageGroups => texts_compare(op, any_group(filters, right, input, values)),
    }
}

// EQ of a text.
#[tactic(auto, using(crate::proofs::VariableLemmas::by_filter))]
fn equals(
    filters: &[FilterIndex],
    right: &Right,
    input: &Seen<'_>,
    values: &Values,
    text: &Short,
) -> bool
    ensures { result ≡ text_equals input.now values.now (right_comparand filters.now right.now) text.now }
{
    match right {
        Right::Literal(other) => text.bytes() == other.bytes(),
        Right::Dots(mask) => mask.matches(text),
        Right::Plain(simple) => simple.matches(text),
        Right::Filter(place) => passes(filters, *place, text),
        Right::Var(slot) => is_named_text(text, slot, input, values),
        Right::Number(_) => false,
    }
}

// The text is that of the variable.
fn is_named_text(text: &Short, slot: &Slot, input: &Seen<'_>, values: &Values) -> bool
    ensures { result ≡ is_that_text text.now (slot_value slot.now input.now values.now) }
{
    is_that_text(text, &named_value(slot, input, values))
}

fn is_that_text(text: &Short, other: &Value) -> bool
    ensures { (input : Input) (values : Values) → result ≡ is_that_text text.now (seen input values other.now) }
{
    match other {
        Value::Text(other) => text.bytes() == other.bytes(),
        _ => false,
    }
}

fn any_volume(filters: &[FilterIndex], right: &Right, input: &Seen<'_>, values: &Values) -> bool
    ensures { result ≡
        list_any (text_equals input.now values.now (right_comparand filters.now right.now)) input.now.volumes }
{
    let volumes = input.volumes();
    volumes.iter().any(|volume| equals(filters, right, input, values, &of_volser(volume)))
}

fn all_volumes(filters: &[FilterIndex], right: &Right, input: &Seen<'_>, values: &Values) -> bool
    ensures { result ≡ (not (is_empty input.now.volumes) &&
        list_all (text_equals input.now values.now (right_comparand filters.now right.now)) input.now.volumes) }
{
    let volumes = input.volumes();
    !volumes.is_empty() && all_equal(filters, right, input, values, volumes)
}

fn all_equal(
    filters: &[FilterIndex],
    right: &Right,
    input: &Seen<'_>,
    values: &Values,
    volumes: &[Volser],
) -> bool
    ensures { result ≡ list_all (text_equals input.now values.now (right_comparand filters.now right.now)) volumes.now }
{
    volumes.iter().all(|volume| equals(filters, right, input, values, &of_volser(volume)))
}

// An empty list counts as the null text.
fn any_group(filters: &[FilterIndex], right: &Right, input: &Seen<'_>, values: &Values) -> bool
    ensures { result ≡ list_any
        (text_equals input.now values.now (right_comparand filters.now right.now)) (groups_or_null values.now.groups) }
{
    let groups = values.groups.as_slice();
    if groups.is_empty() {
        return equals(filters, right, input, values, &Short::null());
    }
    groups.iter().any(|group| equals(filters, right, input, values, &of_name(group)))
}

// NE is the negation of EQ, and no other comparison of texts holds.
fn texts_compare(op: Compare, are_equal: bool) -> bool
    ensures { result ≡ texts_compare op are_equal }
{
    match op {
        Compare::Eq => are_equal,
        Compare::Ne => !are_equal,
        _ => false,
    }
}

// The number on the right, if it is one.
fn number_beside(right: &Right, input: &Seen<'_>, values: &Values) -> Option<u64>
    ensures { (filters : List FilterLists) →
        result ≡ number_beside input.now values.now (right_comparand filters right.now) }
{
    match right {
        Right::Number(number) => Some(*number),
        Right::Var(slot) => named_number(slot, input, values),
        _ => None,
    }
}

// The number of the variable, if it is one.
fn named_number(slot: &Slot, input: &Seen<'_>, values: &Values) -> Option<u64>
    ensures { result ≡ counted (slot_value slot.now input.now values.now) }
{
    counted(&named_value(slot, input, values))
}

fn counted(value: &Value) -> Option<u64>
    ensures { (input : Input) (values : Values) → result ≡ counted (seen input values value.now) }
{
    match value {
        Value::Number(number) => Some(*number),
        Value::Size(kilobytes) => Some(*kilobytes),
        _ => None,
    }
}

fn number_compares(op: Compare, left: u64, right: Option<u64>) -> bool
    ensures { result ≡ number_compares op left right }
{
    match right {
        None => texts_compare(op, false),
        Some(right) => numbers_compare(op, left, right),
    }
}

// NG is LE, and NL is GE.
fn numbers_compare(op: Compare, left: u64, right: u64) -> bool
    ensures { result ≡ numbers_compare op left right }
{
    match op {
        Compare::Eq => left == right,
        Compare::Ne => left != right,
        Compare::Gt => left > right,
        Compare::Lt => left < right,
        Compare::Ge | Compare::Nl => left >= right,
        Compare::Le | Compare::Ng => left <= right,
    }
}
