//! The log of recorded replies and floors.
ghost use Rattle.std.specs.Prelude.{◌≡◌, ◌<◌, [], IfOk, OnOk};
ghost use Rattle.sms_keeper.specs.Log.{kept_in, kept_with};
ghost use Rattle.sms_keeper.specs.declared.request_key.RequestKey.{RequestKey};
ghost use Rattle.desk_records.specs.Tied.{IsLogOf};

use sms_construct::Request;
use sms_keeper::{Floor, KeptRow, RequestLog};
use std::alloc::{AllocError, Global};

/// The log of these floors and replies, which shares what the replies hold.
pub fn log_of(
    alloc: Global,
    floors: &[Floor],
    replies: &[KeptRow],
) -> Result<RequestLog, AllocError>
    ensures { IfOk result (IsLogOf floors.now replies.now) }
{
    let mut log = floors_of(alloc, floors)?;
    for row in replies {
        log.reserve()?;
        keep(&mut log, row)?;
    }
    Ok(log)
}

// The log of these floors, without a reply.
fn floors_of(alloc: Global, floors: &[Floor]) -> Result<RequestLog, AllocError>
    ensures { IfOk result (IsLogOf floors.now []) }
{
    let mut log = RequestLog::new(alloc);
    for row in floors {
        log.reserve()?;
        log.purge(&row.job, row.floor);
    }
    Ok(log)
}

// Keeps the reply of a row under its job and number.
fn keep(log: &mut RequestLog, row: &KeptRow) -> Result<(), AllocError>
    requires { 0 < log.old.reply_room }
    ensures replies { OnOk result ((key : RequestKey) →
        kept_in key log.new.kept ≡ kept_with log.old (record {
          job = row.now.job;
          number = row.now.number;
          op = row.now.request.op;
        }) row.now.place row.now.reply key) }
    ensures floors { OnOk result (log.new.floors ≡ log.old.floors) }
{
    let request = Request {
        job: row.job,
        number: row.number,
        op: row.request.op.copy()?,
    };
    let reply = row.reply.copy()?;
    log.keep(request, row.place, reply);
    Ok(())
}
