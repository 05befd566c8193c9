//! The lists of what routines see, as records.
ghost use Rattle.std.specs.Prelude.{◌≡◌, ◌++◌, OnOk, unwrap_or};
ghost use Rattle.acs_tree.specs.Inputs.{no_lists};
ghost use Rattle.sms_records.specs.Form.{IsReadable};
ghost use Rattle.sms_records.specs.Inner.Givens.{fields_of_lists, lists_form, lists_in};
ghost use Rattle.sms_records.specs.Reading.{Gives};

use crate::record_err::RecordErr;
use crate::recorded::Recorded;
use acs_tree::{Account, Accounting, GivenLists, Input, Volumes};
use desk_common::Boxed;
use std::alloc::{AllocError, Global};

// The volumes; the accounting of the job and of the step.
type Lists = (Volumes, (Account, Account));

// The bytes of the lists where a request gives none: their lengths.
const EMPTY: &[u8] = b"\0\0\0\0\0\0\0\0\0\0\0\0\0\0\0\0\0\0\0\0\0\0\0\0\0\0\0\0\0\0\0\0";

/// The lists at the front of the bytes, in memory of their own if one is given.
pub fn read_lists(
    alloc: Global,
    bytes: &[u8],
) -> Result<(Option<Boxed<GivenLists>>, &[u8]), RecordErr>
    ensures { Gives (λ x. (fields_of_lists (unwrap_or x.0 no_lists), x.1.now)) result (lists_form.read bytes.now) }
{
    match bytes.strip_prefix(EMPTY) {
        Some(rest) => Ok((None, rest)),
        None => read_given_lists(alloc, bytes),
    }
}

// The lists at the front of the bytes, in memory of their own.
fn read_given_lists(
    alloc: Global,
    bytes: &[u8],
) -> Result<(Option<Boxed<GivenLists>>, &[u8]), RecordErr>
    ensures { Gives (λ x. (fields_of_lists (unwrap_or x.0 no_lists), x.1.now)) result (lists_form.read bytes.now) }
{
    match <Lists>::read_from(alloc, bytes) {
        Ok(((volumes, (acct_job, acct_step)), rest)) => {
            let lists = GivenLists {
                accounting: Accounting {
                    acct_job,
                    acct_step,
                },
                volumes,
            };
            Ok((Some(Boxed::new(alloc, lists)?), rest))
        }
        Err(err) => Err(err),
    }
}

/// The lists of what routines see.
pub fn write_lists(input: &Input, out: &mut Vec<u8>) -> Result<(), AllocError>
    ensures written { OnOk result (out.new.items ≡ out.old.items ++ lists_form.write
        (fields_of_lists (lists_in input.now))) }
    ensures readable { OnOk result (IsReadable lists_form (fields_of_lists (lists_in input.now))) }
{
    let accounting = &input.accounting;
    input.volumes.write_to(out)?;
    accounting.acct_job.write_to(out)?;
    accounting.acct_step.write_to(out)
}
