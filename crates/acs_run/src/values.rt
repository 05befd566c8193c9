// What variables hold.
ghost use Rattle.std.specs.Prelude.{◌≡◌};
ghost use Rattle.acs_code.specs.Fields.{field_value, number_value, text_value};
ghost use Rattle.acs_code.specs.Machine.{slot_value};
ghost use Rattle.acs_tree.specs.Value.{text_at};
ghost use Rattle.acs_tree.specs.Variables.{part_of_name};
ghost use Rattle.acs_run.specs.Inner.Seen.{seen};

use crate::short::{last_qualifier, qualifier};
use crate::value::Value;
use acs_code::{Field, NumberField, Slot, TextField};
use acs_tree::{Seen, Values};
use dsn_mask::{Dsn, Short};

/// The text of a field, where it stands.
pub fn text<'a>(field: TextField, index: u8, input: &'a Seen<'_>, values: &'a Values) -> &'a Short
    ensures { result.now ≡ text_value field index input.entry.now values.entry.now }
{
    match field {
        TextField::DataClas => &values.dataclas,
        TextField::StorClas => &values.storclas,
        TextField::MgmtClas => &values.mgmtclas,
        TextField::Job => input.texts().job(),
        TextField::User => input.texts().user(),
        TextField::Group => input.texts().group(),
        TextField::Pgm => input.texts().pgm(),
        TextField::Dd => input.texts().dd(),
        TextField::Applic => input.texts().applic(),
        TextField::Device => input.texts().unit(),
        TextField::Dsorg => input.texts().dsorg(),
        TextField::Recorg => input.texts().recorg(),
        TextField::Dsntype => input.texts().dsntype(),
        TextField::Dsowner => input.texts().dsowner(),
        TextField::Expdt => input.texts().expdt(),
        TextField::AcctJob => account(input.acct_job(), index, input),
        TextField::AcctStep => account(input.acct_step(), index, input),
        TextField::Sysname => input.texts().sysname(),
        TextField::Sysplex => input.texts().sysplex(),
        TextField::DefDataClas => input.texts().dataclas(),
        TextField::DefStorClas => input.texts().storclas(),
        TextField::DefMgmtClas => input.texts().mgmtclas(),
        TextField::Null => input.texts().null(),
    }
}

/// The number of a field.
pub fn number(field: NumberField, input: &Seen<'_>) -> u64
    ensures { result ≡ number_value field input.now }
{
    match field {
        NumberField::Nqual => input.dsn().count() as u64,
        NumberField::Retpd => input.amounts().retpd as u64,
        NumberField::Blksize => input.amounts().blksize as u64,
        NumberField::Zero => 0,
        NumberField::Nvol => input.volumes().len() as u64,
    }
}

/// What a field holds.
pub fn value(field: Field, index: u8, input: &Seen<'_>, values: &Values) -> Value
    ensures { seen input.now values.now result ≡ field_value field index input.now values.now }
{
    match field {
        Field::Text(field) => Value::Text(*text(field, index, input, values)),
        Field::Number(field) => Value::Number(number(field, input)),
        Field::Dsn => Value::Text(part_of_name(input.dsn(), index)),
        Field::Hlq => Value::Text(qualifier(input.dsn(), 1)),
        Field::Llq => Value::Text(last_qualifier(input.dsn())),
        Field::Groups => Value::StorageGroups,
        Field::Dstype => Value::Text(input.texts().dstype()),
        Field::Size => Value::Size(input.amounts().size),
        Field::MaxSize => Value::Size(input.amounts().maxsize),
        Field::AnyVolume => Value::AnyVolume,
        Field::AllVolumes => Value::AllVolumes,
        Field::Acsenvir => Value::Text(input.texts().acsenvir()),
        Field::Xmode => Value::Text(input.texts().xmode()),
    }
}

/// What the variable of that name holds.
pub fn named_value(slot: &Slot, input: &Seen<'_>, values: &Values) -> Value
    ensures { seen input.now values.now result ≡ slot_value slot.now input.now values.now }
{
    value(Field::named(&slot.name), slot.index, input, values)
}

fn part_of_name(dsn: &Dsn, index: u8) -> Short
    ensures { result ≡ part_of_name dsn.now index }
{
    if index == 0 {
        dsn.text()
    } else {
        qualifier(dsn, index as usize)
    }
}

// The text of that number, counted from 1, or null.
fn account<'a>(fields: &'a [Short], number: u8, input: &'a Seen<'_>) -> &'a Short
    ensures { result.now ≡ text_at fields.entry.now number }
{
    if number == 0 {
        return input.texts().null();
    }
    match fields.get(number as usize - 1) {
        Some(text) => text,
        None => input.texts().null(),
    }
}
