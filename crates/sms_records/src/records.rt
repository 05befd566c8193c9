//! The records of requests, replies and data sets.
ghost use Rattle.std.specs.Prelude.{◌≡◌, IfOk, IsErrOf};
ghost use Rattle.sms_construct.specs.declared.data_set.DataSet.{DataSet};
ghost use Rattle.sms_construct.specs.declared.reply.Reply.{Reply};
ghost use Rattle.sms_construct.specs.declared.request.Request.{Request};
ghost use Rattle.sms_records.specs.declared.record_err.RecordErr.TheVariants.{Bad};
ghost use Rattle.sms_records.specs.Form.{IsReadable, whole};
ghost use Rattle.sms_records.specs.Reading.{Gives};
ghost use Rattle.sms_records.specs.Replies.{reply_form};
ghost use Rattle.sms_records.specs.Requests.{request_form};
ghost use Rattle.sms_records.specs.Sets.{data_set_form};

use crate::record_err::RecordErr;
use crate::recorded::{read_whole, record_of};
use sms_construct::{DataSet, Reply, Request};
use std::alloc::{AllocError, Global};

/// The record of a request (docs/manual/records.md, "The record form"), or want of memory. The record is readable:
/// whatever stands behind it, reading gives the value again.
pub fn request_record(alloc: Global, request: &Request) -> Result<Vec<u8>, AllocError>
    ensures written { IfOk result (λ bytes. bytes.items ≡ request_form.write request.now) }
    ensures readable { IfOk result (λ bytes. IsReadable request_form request.now) }
{
    record_of(alloc, request)
}

/// The request whose record these bytes are. `Bad` exactly where they are the record of none; otherwise a
/// refusal is want of memory.
pub fn read_request(alloc: Global, bytes: &[u8]) -> Result<Request, RecordErr>
    ensures read { Gives (λ x. x) result (whole request_form bytes.now) }
    ensures found { IfOk result (λ value. bytes.now ≡ request_form.write value) }
    ensures bad { IsErrOf result Bad → (value : Request) → IsReadable request_form value →
        bytes.now ≡ request_form.write value → ⊥ }
{
    read_whole(alloc, bytes)
}

/// The record of a reply (docs/manual/records.md, "The record form"), or want of memory. The record is readable:
/// whatever stands behind it, reading gives the value again.
pub fn reply_record(alloc: Global, reply: &Reply) -> Result<Vec<u8>, AllocError>
    ensures written { IfOk result (λ bytes. bytes.items ≡ reply_form.write reply.now) }
    ensures readable { IfOk result (λ bytes. IsReadable reply_form reply.now) }
{
    record_of(alloc, reply)
}

/// The reply whose record these bytes are. `Bad` exactly where they are the record of none; otherwise a
/// refusal is want of memory.
pub fn read_reply(alloc: Global, bytes: &[u8]) -> Result<Reply, RecordErr>
    ensures read { Gives (λ x. x) result (whole reply_form bytes.now) }
    ensures found { IfOk result (λ value. bytes.now ≡ reply_form.write value) }
    ensures bad { IsErrOf result Bad → (value : Reply) → IsReadable reply_form value →
        bytes.now ≡ reply_form.write value → ⊥ }
{
    read_whole(alloc, bytes)
}

/// The record of a data set (docs/manual/records.md, "The record form"), or want of memory. The record is readable:
/// whatever stands behind it, reading gives the value again.
pub fn set_record(alloc: Global, set: &DataSet) -> Result<Vec<u8>, AllocError>
    ensures written { IfOk result (λ bytes. bytes.items ≡ data_set_form.write set.now) }
    ensures readable { IfOk result (λ bytes. IsReadable data_set_form set.now) }
{
    record_of(alloc, set)
}

/// The data set whose record these bytes are. `Bad` exactly where they are the record of none; otherwise a
/// refusal is want of memory.
pub fn read_set(alloc: Global, bytes: &[u8]) -> Result<DataSet, RecordErr>
    ensures read { Gives (λ x. x) result (whole data_set_form bytes.now) }
    ensures found { IfOk result (λ value. bytes.now ≡ data_set_form.write value) }
    ensures bad { IsErrOf result Bad → (value : DataSet) → IsReadable data_set_form value →
        bytes.now ≡ data_set_form.write value → ⊥ }
{
    read_whole(alloc, bytes)
}
