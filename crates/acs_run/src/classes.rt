//! What SET sets.
ghost use Rattle.std.specs.Prelude.{◌≡◌};
ghost use Rattle.acs_code.specs.Machine.{part_class};
ghost use Rattle.acs_tree.specs.Setting.{as_class, text_of, with_class};
ghost use Rattle.acs_tree.specs.declared.input.Input.{Input};
ghost use Rattle.acs_tree.specs.declared.values.Values.{Values};
ghost use Rattle.acs_run.specs.Inner.Seen.{seen};

use crate::value::Value;
use crate::values::named_value;
use acs_code::Part;
use acs_tree::{Kind, Seen, Values};
use dsn_mask::{Lit, Short};

/// What a class is set to.
pub fn class(part: &Part, input: &Seen<'_>, values: &Values) -> Short
    ensures { result ≡ part_class part.now input.now values.now }
{
    match part {
        Part::Literal(text) => as_class(text),
        Part::Var(slot) => text_of(&named_value(slot, input, values)),
    }
}

fn as_class(text: &Lit) -> Short
    ensures { result ≡ as_class text.now }
{
    match Short::new(text.bytes()) {
        Some(class) => class,
        None => Short::null(),
    }
}

fn text_of(value: &Value) -> Short
    ensures { (input : Input) (values : Values) → result ≡ text_of (seen input values value.now) }
{
    match value {
        Value::Text(text) => *text,
        _ => Short::null(),
    }
}

/// Sets the class of that kind.
pub fn set_class(kind: Kind, class: Short, values: &mut Values)
    ensures { values.new ≡ with_class kind class values.old }
{
    match kind {
        Kind::DataClas => values.dataclas = class,
        Kind::StorClas => values.storclas = class,
        Kind::MgmtClas => values.mgmtclas = class,
        Kind::StorGrp => (),
    }
}
