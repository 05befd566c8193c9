//! What routines see of a request, as a record.
ghost use Rattle.std.specs.Prelude.{◌≡◌, ◌++◌, OnOk, unwrap_or};
ghost use Rattle.acs_tree.specs.Inputs.{no_lists};
ghost use Rattle.sms_records.specs.Form.{IsReadable, made_at};
ghost use Rattle.sms_records.specs.Inner.Givens.{counted_form, fields_of_counted, input_of_parts, lists_in};
ghost use Rattle.sms_records.specs.Inner.Givens.{parted_form, parts_of_input};
ghost use Rattle.sms_records.specs.Reading.{Gives};

use crate::given_lists::{read_lists, write_lists};
use crate::given_texts::{read_texts, write_texts};
use crate::name_parts::{read_seen_name, write_seen_name};
use crate::record_err::RecordErr;
use crate::recorded::Recorded;
use acs_tree::{Amounts, Given, GivenLists, Input};
use desk_common::Boxed;
use std::alloc::{AllocError, Global};

// The numbers, and the lists if one is given.
type Counted = (Amounts, Option<Boxed<GivenLists>>);

impl Recorded for Given {
    ghost use Rattle.sms_records.specs.Inputs.{input_form};
    ghost use Rattle.sms_records.specs.Inner.InputLaws.{input_exact};

    ghost form = { input_form };

    ghost exact = { input_exact };

    fn write_to(&self, out: &mut Vec<u8>) -> Result<(), AllocError> {
        write_parts(&self.whole(), out)
    }

    fn read_from(alloc: Global, bytes: &[u8]) -> Result<(Self, &[u8]), RecordErr> {
        read_parts(alloc, bytes)
    }
}

// The parts of what routines see.
fn write_parts(input: &Input, out: &mut Vec<u8>) -> Result<(), AllocError>
    ensures written { OnOk result (out.new.items ≡ out.old.items ++ parted_form.write (parts_of_input input.now)) }
    ensures readable { OnOk result (IsReadable parted_form (parts_of_input input.now)) }
{
    write_seen_name(&input.dsn, out)?;
    write_texts(input, out)?;
    write_counted(input, out)
}

// The numbers and the lists of what routines see.
fn write_counted(input: &Input, out: &mut Vec<u8>) -> Result<(), AllocError>
    ensures written { OnOk result (out.new.items ≡ out.old.items ++ counted_form.write
        (fields_of_counted input.now.amounts (lists_in input.now))) }
    ensures readable { OnOk result (IsReadable counted_form
        (fields_of_counted input.now.amounts (lists_in input.now))) }
{
    let amounts = &input.amounts;
    (amounts.retpd, amounts.blksize).write_to(out)?;
    write_lists(input, out)?;
    (amounts.size, amounts.maxsize).write_to(out)
}

// What a request gives, whose parts are at the front of the bytes.
#[tactic(auto, unfolding(crate::specs::Form::both_at, crate::specs::Form::made_at))]
fn read_parts(alloc: Global, bytes: &[u8]) -> Result<(Given, &[u8]), RecordErr>
    ensures { Gives (λ x. (x.0, x.1.now)) result (made_at parted_form input_of_parts bytes.now) }
{
    match read_seen_name(alloc, bytes) {
        Ok((dsn, rest)) => match read_texts(alloc, rest) {
            Ok((texts, rest)) => match read_counted(alloc, rest) {
                Ok(((amounts, lists), rest)) => Ok((Given::new(dsn, amounts, texts, lists), rest)),
                Err(err) => Err(err),
            },
            Err(err) => Err(err),
        },
        Err(err) => Err(err),
    }
}

// The numbers and the lists at the front of the bytes.
#[tactic(auto, unfolding(crate::specs::Form::both_at))]
fn read_counted(alloc: Global, bytes: &[u8]) -> Result<(Counted, &[u8]), RecordErr>
    ensures { Gives (λ x. (fields_of_counted x.0.0 (unwrap_or x.0.1 no_lists), x.1.now)) result
        (counted_form.read bytes.now) }
{
    let ((retpd, blksize), rest) = <(u32, u32)>::read_from(alloc, bytes)?;
    match read_lists(alloc, rest) {
        Ok((lists, rest)) => {
            let ((size, maxsize), rest) = <(u64, u64)>::read_from(alloc, rest)?;
            let amounts = Amounts {
                retpd,
                blksize,
                size,
                maxsize,
            };
            Ok(((amounts, lists), rest))
        }
        Err(err) => Err(err),
    }
}
