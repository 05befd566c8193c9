//! Options, lists and shared values as bytes.
ghost use Rattle.std.specs.Prelude.{◌≡◌, ◌++◌, [], OnOk};
ghost use Rattle.std.specs.List.{flat_map, AllByRecursion};
ghost use Rattle.sms_records.specs.Form.{IsReadable, list, many_at};
ghost use Rattle.sms_records.specs.Reading.{Gives};

use crate::numbers::{read_number, write_number};
use crate::record_err::RecordErr;
use crate::recorded::Recorded;
use desk_common::{Items, Shared};
use std::alloc::{AllocError, Global};

impl<T: Recorded> Recorded for Option<T> {
    ghost use Rattle.sms_records.specs.Form.{option};
    ghost use Rattle.sms_records.specs.Inner.ListLaws.{option_exact};

    ghost form = { option T.form };

    ghost exact = { option_exact T.form T.exact };

    fn write_to(&self, out: &mut Vec<u8>) -> Result<(), AllocError> {
        match self {
            None => Ok(out.push(0)?),
            Some(value) => {
                out.push(1)?;
                value.write_to(out)
            }
        }
    }

    #[tactic(auto, unfolding(crate::specs::Form::option_at))]
    fn read_from(alloc: Global, bytes: &[u8]) -> Result<(Self, &[u8]), RecordErr> {
        match bytes {
            [] => Err(RecordErr::Bad),
            [0, rest @ ..] => Ok((None, rest)),
            [1, rest @ ..] => {
                let (value, rest) = T::read_from(alloc, rest)?;
                Ok((Some(value), rest))
            }
            [_, ..] => Err(RecordErr::Bad),
        }
    }
}

impl<T: Recorded> Recorded for Shared<T> {
    ghost form = { T.form };

    ghost exact = { T.exact };

    fn write_to(&self, out: &mut Vec<u8>) -> Result<(), AllocError> {
        self.get().write_to(out)
    }

    fn read_from(alloc: Global, bytes: &[u8]) -> Result<(Self, &[u8]), RecordErr> {
        let (value, rest) = T::read_from(alloc, bytes)?;
        Ok((Shared::new(alloc, value)?, rest))
    }
}

impl<T: Recorded> Recorded for Items<T> {
    ghost use Rattle.sms_records.specs.Form.{list};
    ghost use Rattle.sms_records.specs.Inner.ListLaws.{list_exact};

    ghost form = { list T.form };

    ghost exact = { list_exact T.form T.exact };

    fn write_to(&self, out: &mut Vec<u8>) -> Result<(), AllocError> {
        write_list(self.as_slice(), out)
    }

    #[tactic(auto, unfolding(crate::specs::Form::list_at))]
    fn read_from(alloc: Global, bytes: &[u8]) -> Result<(Self, &[u8]), RecordErr> {
        let (count, rest) = read_number(bytes)?;
        let (items, rest) = read_items(alloc, count, rest)?;
        Ok((Items::from_vec(items), rest))
    }
}

/// The number of the items, and they one behind the other.
pub fn write_list<T: Recorded>(items: &[T], out: &mut Vec<u8>) -> Result<(), AllocError>
    ensures written { OnOk result (out.new.items ≡ out.old.items ++ (list T.form).write items.now) }
    ensures readable { OnOk result (IsReadable (list T.form) items.now) }
{
    write_number(items.len() as u64, out)?;
    write_items(items, out)
}

/// The items, one behind the other.
pub fn write_items<T: Recorded>(items: &[T], out: &mut Vec<u8>) -> Result<(), AllocError>
    ensures written { OnOk result (out.new.items ≡ out.old.items ++ flat_map T.form.write items.now) }
    ensures readable { OnOk result (AllByRecursion (IsReadable T.form) items.now) }
{
    for item in items {
        item.write_to(out)?;
    }
    Ok(())
}

/// So many items, one behind the other.
pub fn read_items<T: Recorded>(
    alloc: Global,
    count: u64,
    bytes: &[u8],
) -> Result<(Vec<T>, &[u8]), RecordErr>
    ensures { Gives (λ x. (x.0.items, x.1.now)) result (many_at T.form count bytes.now) }
{
    let mut items = Vec::new(alloc);
    let mut rest = bytes;
    for _ in 0..count {
        let (item, after) = T::read_from(alloc, rest)?;
        items.push(item)?;
        rest = after;
    }
    Ok((items, rest))
}
