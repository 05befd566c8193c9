//! Files that are found, in a folder of the test.
use crate::changes::change;
use sms_keeper::{Change, Keeper, Stored};
use sms_sqlite::SqlKeeper;
use sqlite::{Connection, Error, ErrorCode, File, FileStore};
use std::alloc::Global;
use std::fs;
use std::test::Fail;

type OpenFile = Connection<FileStore<File>>;

fn opened(rt: &HostRuntime, path: &str) -> Result<OpenFile, Error> {
    Connection::open(rt, path)
}

fn is_shut(connection: OpenFile) -> bool {
    connection.close().is_ok()
}

fn is_made<K: Stored>(keeper: &mut K, made: &Change) -> bool {
    keeper.ready().is_ok() && made.suits() && keeper.commit(made).is_ok() && keeper.faults() == 0
}

// Whether the keeper over the database is made ready and makes the change, without a fault, and its database.
fn committed(alloc: Global, connection: OpenFile, made: &Change) -> (bool, OpenFile) {
    let mut keeper = SqlKeeper::new(alloc, connection);
    let good = is_made(&mut keeper, made);
    (good, keeper.into_connection())
}

// The number that a query answers, if it answers one.
fn number_of(connection: &mut OpenFile, sql: &str) -> Option<i64> {
    let row = connection.query_row(sql, &[]).ok()?;
    row.get::<i64>(0).ok()
}

// Whether there are one data set and so many replies.
fn has_rows(connection: &mut OpenFile, replies: u32) -> bool {
    number_of(connection, "SELECT count(*) FROM sets") == Some(1)
        && number_of(connection, "SELECT count(*) FROM replies") == Some(i64::from(replies))
}

// Whether the database is made ready, makes the change with this number, and keeps as many replies then.
fn goes_on(alloc: Global, connection: OpenFile, made: &Change, number: u32) -> bool {
    let (good, mut connection) = committed(alloc, connection, made);
    let is_kept = has_rows(&mut connection, number);
    is_shut(connection) && good && is_kept
}

// The same of a file, which is opened and shut.
fn keeps(rt: &HostRuntime, path: &str, number: u32) -> Result<bool, Fail> {
    let made = change(rt.alloc(), number)?;
    Ok(match opened(rt, path) {
        Ok(connection) => goes_on(rt.alloc(), connection, &made, number),
        Err(_) => false,
    })
}

// A file: its records are there at the next open, and stay when it is made ready again.
fn keeps_rows(rt: &HostRuntime, path: &str) -> Result<bool, Fail> {
    Ok(keeps(rt, path, 1)? && keeps(rt, path, 2)?)
}

// Whether the path isn't opened, by this cause where one is given.
fn is_refused(rt: &HostRuntime, path: &str, cause: Option<ErrorCode>) -> bool {
    match opened(rt, path) {
        Ok(_) => false,
        Err(Error::SqliteFailure(code)) => cause.is_none() || cause == Some(code),
        Err(_) => false,
    }
}

// Whether a file that is open isn't opened a second time.
fn is_locked(rt: &HostRuntime) -> bool {
    match opened(rt, "locked.db") {
        Ok(first) => {
            let good = is_refused(rt, "locked.db", None);
            is_shut(first) && good
        }
        Err(_) => false,
    }
}

#[test]
fn a_file_holds_what_was_committed(rt: HostRuntime) -> Result<(), Fail> {
    fs::write(&rt, "empty.db", "")?;
    assert!(rt; keeps_rows(&rt, "kept.db")? && keeps_rows(&rt, "empty.db")?);
    Ok(())
}

const WORDS: &str =
    "one fish two fish red fish blue fish, and so on for more than a hundred bytes: \
    one fish two fish red fish blue fish, one fish two fish red fish blue fish\n";

// Whether what is no database isn't opened, nor what is open already.
fn are_refused(rt: &HostRuntime) -> bool {
    is_refused(rt, "no/such/folder/t.db", Some(ErrorCode::CannotOpen))
        && is_refused(rt, ".", None)
        && is_refused(rt, "words.db", None)
        && is_locked(rt)
}

#[test]
fn what_is_no_database_is_not_opened_and_stays(rt: HostRuntime) -> Result<(), Fail> {
    fs::write(&rt, "words.db", WORDS)?;
    assert!(rt; are_refused(&rt));
    assert!(rt; fs::read_to_string(&rt, "words.db")?.as_str() == WORDS);
    Ok(())
}
