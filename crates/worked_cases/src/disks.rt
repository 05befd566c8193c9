//! Disks in memory some calls of which fail, and connections over them.
use crate::flaky::Flaky;
use sqlite::{Connection, FileStore, Files, Options};
use sqlite_disk::{Crash, Memory};
use std::alloc::Global;

/// A database file and its log.
pub type Disks = Files<Flaky<Memory>>;

/// The store of a connection over them.
pub type DiskStore = FileStore<Flaky<Memory>>;

/// Whether the line is a fault of a disk.
pub fn is_disk_fault(line: &str) -> bool {
    line.starts_with("log stops behind ")
        || line.starts_with("log fails behind ")
        || line.starts_with("file stops behind ")
        || line.starts_with("file fails behind ")
}

/// Whether one of the lines is.
pub fn has_disk_fault(lines: &str) -> bool {
    for line in lines.lines() {
        if is_disk_fault(line) {
            return true;
        }
    }
    false
}

/// New disks, which don't fail.
pub fn new_disks(alloc: Global) -> Disks {
    Files {
        log: Flaky::new(Memory::new(alloc)),
        db: Flaky::new(Memory::new(alloc)),
    }
}

/// Lets the calls fail that the text says: one, or all, behind those that pass.
pub fn fail_as(disks: &mut Disks, fault: &str) {
    let Some((how, number)) = fault.rsplit_once(" behind ") else {
        return;
    };
    let passes = number.trim().parse::<u64>().unwrap_or(0);
    let fails = if how.ends_with("stops") { u64::MAX } else { 1 };
    if how.starts_with("log") {
        disks.log.fail_behind(passes, fails);
    } else {
        disks.db.fail_behind(passes, fails);
    }
}

/// A connection over the disks, or the disks where they can't be opened.
pub fn opened(alloc: Global, disks: Disks) -> Result<Connection<DiskStore>, Disks> {
    if !disks.may_be_used() {
        return Err(disks);
    }
    match Connection::open_files(alloc, disks, Options::new(7)) {
        Ok(connection) => Ok(connection),
        Err((_, left)) => Err(left.into_files()),
    }
}

/// The disks of a connection that is dropped, behind a stop of the machine.
pub fn disks_of(connection: Connection<DiskStore>) -> Disks {
    crashed(connection.into_store().close())
}

/// The disks behind a stop of the machine; they fail no more.
pub fn crashed(mut disks: Disks) -> Disks {
    disks.log.crash();
    disks.db.crash();
    disks
}
