//! Runs over a connection to a database.
use crate::ended::{Asked, Ended, Streams};
use crate::outcome::said_of;
use crate::queries::{carry_out, push_found};
use db_calls::{DbStatus, db_main};
use desk_calls::RunStatus;
use sms_keeper::{Keeper, Stored};
use sms_sqlite::SqlKeeper;
use sqlite::{Alter, Connection};
use std::alloc::{AllocError, Global};

/// Answers the run over the connection, and what is asked of the database before and behind it.
pub fn answered<S: Alter + Drop>(
    alloc: Global,
    words: &[String],
    asked: &Asked<'_>,
    streams: &mut Streams,
    mut connection: Connection<S>,
) -> Result<(Ended, Connection<S>), AllocError> {
    let mut behind = String::new(alloc);
    carry_out(&mut connection, asked.orders, &mut behind)?;
    let (status, keeper) = answer(alloc, words, streams, SqlKeeper::new(alloc, connection));
    let mut ended = Ended {
        status: status.code(),
        says: String::new(alloc),
        counted: keeper.faults(),
        behind,
    };
    let mut connection = keeper.into_connection();
    push_found(alloc, &mut connection, asked.orders, &mut ended.behind)?;
    ended.says = told_of(alloc, words, status, asked.input, streams.out.taken())?;
    Ok((ended, connection))
}

fn answer<P: Stored>(
    alloc: Global,
    words: &[String],
    streams: &mut Streams,
    keeper: P,
) -> (DbStatus, P) {
    db_main(alloc, words, &mut streams.src, &mut streams.out, keeper)
}

// What is said of the run; where no desk goes on from the tables, why.
fn told_of(
    alloc: Global,
    words: &[String],
    status: DbStatus,
    input: &str,
    output: &[u8],
) -> Result<String, AllocError> {
    match status {
        DbStatus::Ran(RunStatus::NoMemory) => String::from_str(alloc, "no memory\n"),
        DbStatus::Ran(status) => said_of(alloc, words, status, input, output),
        DbStatus::StoreFault => String::from_str(alloc, "the keeper failed\n"),
        DbStatus::Store(err) => format!(in alloc; "{err}\n"),
    }
}
