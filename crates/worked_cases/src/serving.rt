//! Runs of the served desk.
ghost use Rattle.std.specs.Prelude.{◌≡◌};
ghost use Rattle.sms_keeper.specs.Tables.{AreSame, no_rows, rows_after};

use crate::ended::{Asked, Ended};
use crate::meeting::Meeting;
use crate::text_door::{TextDoor, doors_of};
use desk_words::serve_words;
use serve_calls::serve_main;
use sms_base::MemSink;
use sms_desk::FreeGate;
use sms_keeper::MemKeeper;
use std::alloc::{AllocError, Global};
use std::sync::Wait;
use std::thread::Threads;

/// Serves a new desk to the links that the input writes; None where the words ask for nothing, or for fewer workers
/// than there are doors.
pub fn served<R: AllocGlobal + Threads + Wait + Sync>(
    rt: &R,
    words: &[String],
    asked: &Asked<'_>,
    out: &mut MemSink,
) -> Result<Option<Ended>, AllocError> {
    let Some(task) = serve_words(words) else {
        return Ok(None);
    };
    let meeting = Meeting::of(asked.faults.doors);
    let count = usize::from(task.workers);
    let doors = doors_of(rt.alloc(), asked.input, count, asked.faults.room, &meeting)?;
    if doors.len() != count {
        return Ok(None);
    }
    let (status, _core, doors, _visits) = serve_main(
        rt.alloc(),
        rt,
        words,
        doors,
        out,
        new_keeper(rt.alloc()),
        &FreeGate,
    );
    ending_of(rt.alloc(), status.code(), &doors, meeting.alone())
}

// A keeper that has recorded nothing.
fn new_keeper(alloc: Global) -> MemKeeper
    ensures { AreSame (rows_after result) no_rows }
{
    MemKeeper::new(alloc)
}

// How serving ended, with what the links of each door were sent.
fn ending_of(
    alloc: Global,
    status: u8,
    doors: &[TextDoor<'_>],
    alone: u64,
) -> Result<Option<Ended>, AllocError> {
    let mut behind = String::new(alloc);
    for door in doors {
        behind.push_str(door.sent())?;
    }
    let says = match alone {
        0 => "\n",
        _ => "a door went on alone\n",
    };
    Ok(Some(Ended {
        status,
        says: String::from_str(alloc, says)?,
        counted: 0,
        behind,
    }))
}
