//! Runs over a database in memory.
use crate::disks::{
    DiskStore, Disks, crashed, disks_of, fail_as, is_disk_fault, new_disks, opened,
};
use crate::ended::{Asked, Ended, Streams};
use crate::queries::number_of;
use crate::stored::answered;
use sqlite::{Connection, MemStore};
use std::alloc::{AllocError, Global};

/// The exit status where a database can't be opened.
const NOT_OPENED: u8 = 9;

/// A database in memory, or disks in memory with how many requests are known to be kept on them.
#[derive(Drop)]
pub enum Database {
    Whole(Connection<MemStore>),
    OnDisks(Disks, u64),
}

impl Database {
    /// New disks, on which nothing is kept.
    pub fn on_disks(alloc: Global) -> Database {
        Database::OnDisks(new_disks(alloc), 0)
    }
}

/// Answers the run over the database, which is made where there is none.
pub fn over_database(
    alloc: Global,
    words: &[String],
    asked: &Asked<'_>,
    streams: &mut Streams,
    database: &mut Option<Database>,
) -> Result<Ended, AllocError> {
    let (ended, left) = match database.take() {
        Some(Database::OnDisks(disks, kept)) => {
            over_disks(alloc, words, asked, streams, disks, kept)?
        }
        Some(Database::Whole(connection)) => over_whole(alloc, words, asked, streams, connection)?,
        None => {
            let connection = Connection::open_in_memory(alloc)?;
            over_whole(alloc, words, asked, streams, connection)?
        }
    };
    *database = Some(left);
    Ok(ended)
}

fn over_whole(
    alloc: Global,
    words: &[String],
    asked: &Asked<'_>,
    streams: &mut Streams,
    connection: Connection<MemStore>,
) -> Result<(Ended, Database), AllocError> {
    let (ended, connection) = answered(alloc, words, asked, streams, connection)?;
    Ok((ended, Database::Whole(connection)))
}

// The same over disks, which fail as the orders say; behind the run the machine has stopped.
fn over_disks(
    alloc: Global,
    words: &[String],
    asked: &Asked<'_>,
    streams: &mut Streams,
    disks: Disks,
    kept: u64,
) -> Result<(Ended, Database), AllocError> {
    match opened(alloc, failing(disks, asked.orders)) {
        Ok(connection) => over_opened(alloc, words, asked, streams, connection, kept),
        Err(disks) => {
            let ended = Ended {
                status: NOT_OPENED,
                says: String::new(alloc),
                counted: 0,
                behind: String::new(alloc),
            };
            Ok((ended, Database::OnDisks(crashed(disks), kept)))
        }
    }
}

fn failing(mut disks: Disks, orders: &str) -> Disks {
    for order in orders.lines() {
        if is_disk_fault(order) {
            fail_as(&mut disks, order);
        }
    }
    disks
}

// The same over disks that were opened; the last line behind the output says whether what was kept was found.
fn over_opened(
    alloc: Global,
    words: &[String],
    asked: &Asked<'_>,
    streams: &mut Streams,
    mut connection: Connection<DiskStore>,
    kept: u64,
) -> Result<(Ended, Database), AllocError> {
    let found = number_of(&mut connection, "SELECT max(place) FROM replies");
    let (mut ended, connection) = answered(alloc, words, asked, streams, connection)?;
    let (word, base) = word_of(kept, found);
    ended.behind.push_str(word)?;
    let more = acknowledged(&ended, streams.out.taken());
    let left = Database::OnDisks(disks_of(connection), base.saturating_add(more));
    Ok((ended, left))
}

// What is said of the greatest place that was found, where so many requests were acknowledged; and how many are kept,
// of which no more are taken for kept than may be.
fn word_of(kept: u64, found: Option<i64>) -> (&'static str, u64) {
    let found = match found {
        Some(found) => u64::try_from(found).unwrap_or(0),
        None => 0,
    };
    if found < kept {
        ("LOST\n", kept)
    } else if found > kept.saturating_add(1) {
        ("MORE\n", kept)
    } else {
        ("KEPT\n", found)
    }
}

// How many answers were written that tell no fault of the keeper.
fn acknowledged(ended: &Ended, output: &[u8]) -> u64 {
    if ended.status != 0 {
        return 0;
    }
    let text = std::str::from_utf8(output).unwrap_or("").trim();
    let (_, count) = text.rsplit_once(" ").unwrap_or(("", ""));
    count
        .parse::<u64>()
        .unwrap_or(0)
        .saturating_sub(ended.counted)
}
