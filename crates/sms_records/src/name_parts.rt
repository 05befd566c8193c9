//! The name of a data set with what routines see of it, as a record.
ghost use Rattle.std.specs.Prelude.{◌≡◌, ◌++◌, OnOk};
ghost use Rattle.acs_tree.specs.Value.{text_at};
ghost use Rattle.dsn_mask.specs.Qualifiers.{qualifiers_of};
ghost use Rattle.sms_records.specs.Form.{IsReadable};
ghost use Rattle.sms_records.specs.Inputs.{are_parts, name_parts_form, seen_name_form};
ghost use Rattle.sms_records.specs.Reading.{Gives};

use crate::numbers::{read_number, write_number};
use crate::record_err::RecordErr;
use crate::recorded::Recorded;
use crate::texts::{read_text, write_text};
use dsn_mask::Dsn;
use std::alloc::{AllocError, Global};

/// The name, its first and its last qualifier, and their number.
pub fn write_seen_name(dsn: &Dsn, out: &mut Vec<u8>) -> Result<(), AllocError>
    ensures written { OnOk result (out.new.items ≡ out.old.items ++ seen_name_form.write dsn.now) }
    ensures readable { OnOk result (IsReadable seen_name_form dsn.now) }
{
    dsn.write_to(out)?;
    write_text(qualifier(dsn, 1), out)?;
    write_text(qualifier(dsn, dsn.count()), out)?;
    write_number(dsn.count() as u64, out)
}

/// The name at the front of the bytes, where its parts stand behind it.
#[tactic(auto, unfolding(crate::specs::Form::both_at, crate::specs::Form::seen_at))]
pub fn read_seen_name(alloc: Global, bytes: &[u8]) -> Result<(Dsn, &[u8]), RecordErr>
    ensures { Gives (λ x. (x.0, x.1.now)) result (seen_name_form.read bytes.now) }
{
    match Dsn::read_from(alloc, bytes) {
        Ok((dsn, rest)) => match read_parts(rest) {
            Ok(((first, (last, count)), rest)) if are_parts(&dsn, first, last, count) => Ok((
                dsn, rest,
            )),
            Ok(_) => Err(RecordErr::Bad),
            Err(err) => Err(err),
        },
        Err(err) => Err(err),
    }
}

// The parts of a name at the front of the bytes.
#[tactic(auto, unfolding(crate::specs::Form::both_at))]
fn read_parts(bytes: &[u8]) -> Result<((&[u8], (&[u8], u64)), &[u8]), RecordErr>
    ensures { Gives (λ x. ((x.0.0.now, (x.0.1.0.now, x.0.1.1)), x.1.now)) result (name_parts_form.read bytes.now) }
{
    let (first, rest) = read_text(bytes)?;
    let (last, rest) = read_text(rest)?;
    let (count, rest) = read_number(rest)?;
    Ok(((first, (last, count)), rest))
}

// Whether these are the first and the last qualifier of the name, and their number.
fn are_parts(dsn: &Dsn, first: &[u8], last: &[u8], count: u64) -> bool
    ensures { result ≡ are_parts dsn.now (first.now, (last.now, count)) }
{
    first == qualifier(dsn, 1) && last == qualifier(dsn, dsn.count()) && count == dsn.count() as u64
}

// The qualifier of that number, counted from 1, or nothing.
fn qualifier(dsn: &Dsn, number: usize) -> &[u8]
    ensures { result.now ≡ text_at (qualifiers_of dsn.now) number }
{
    match dsn.qualifier(number) {
        Some(bytes) => bytes,
        None => b"",
    }
}
