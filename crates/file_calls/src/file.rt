//! The top call of the desk over a database file.
ghost use Rattle.std.specs.Prelude.{◌≡◌, IfErr, IfOk, IsTrue, map, string_bytes};
ghost use Rattle.sqlite.specs.Files.{IsOpened, file_state, over_files};
ghost use Rattle.sqlite.specs.Opening.{is_open_error};
ghost use Rattle.sqlite.specs.Start.{FindsIn};
ghost use Rattle.sqlite.specs.State.{HasCleanDisk};
ghost use Rattle.sqlite_wal.specs.Files.{image_at};
ghost use Rattle.sms_base.specs.Observed.{seen_streams};
ghost use Rattle.file_calls.specs.FileEnds.{WasRunOver};

use db_calls::{DbStatus, db_main};
use sms_base::{Sink, Source};
use sms_sqlite::SqlKeeper;
use sqlite::{Alter, Connection, Error, FileStore};
use sqlite_std_file::{FileFrom, Start};
use std::alloc::Global;

/// Answers the script of the source with the records in the file at a path, which it opens or makes, as `db_main` does
/// over a new keeper of its connection, and hands that keeper back. What the file held, `start` stands for: whatever
/// that was, where the disk has returned what was written the desk goes on from what is found there
/// (docs/manual/records.md, "The database"). Where the file can't be opened, nothing is read or written.
pub fn answer_file<S: Source, K: Sink, T: Start>(
    rt: &HostRuntime,
    words: &[String],
    file: &str,
    src: &mut S,
    out: &mut K,
    start: T,
) -> Result<(DbStatus, SqlKeeper<FileStore<FileFrom<T>>>), Error>
    ensures named { IfErr result (λ e. IsTrue (is_open_error e)) }
    ensures unread { IfErr result (λ _. src.new ≡ src.old) }
    ensures unwritten { IfErr result (λ _. out.new ≡ out.old) }
    ensures ran { IfOk result (λ r.
        (found : _) × (HasCleanDisk (file_state found) → IsOpened found × FindsIn (image_at T.Start) (file_state found))
        × WasRunOver over_files (map string_bytes words.now) src.old src.new out.old out.new
        (seen_streams S.left S.reads S.read_faults K.taken K.write_faults src.old out.old)
        (seen_streams S.left S.reads S.read_faults K.taken K.write_faults src.new out.new) found r.1 r.0) }
{
    match Connection::open_from(rt, file, false, start) {
        Ok(connection) => Ok(answer_over(rt.alloc(), words, src, out, connection)),
        Err((error, _)) => Err(error),
    }
}

/// The same over a database that is open.
pub fn answer_over<S: Source, K: Sink, D: Alter + Drop>(
    alloc: Global,
    words: &[String],
    src: &mut S,
    out: &mut K,
    connection: Connection<D>,
) -> (DbStatus, SqlKeeper<D>)
    ensures { WasRunOver D.Store (map string_bytes words.now) src.old src.new out.old out.new
        (seen_streams S.left S.reads S.read_faults K.taken K.write_faults src.old out.old)
        (seen_streams S.left S.reads S.read_faults K.taken K.write_faults src.new out.new)
        connection result.1 result.0 }
{
    let keeper = SqlKeeper::new(alloc, connection);
    db_main(alloc, words, src, out, keeper)
}
