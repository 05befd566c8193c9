//! What routines write.
ghost use Rattle.std.specs.Prelude.{◌≡◌, ◌*◌, IfOk, length};
ghost use Rattle.desk_common.specs.Limits.{most_lines};
ghost use Rattle.acs_tree.specs.Slates.{blank, count_of, more_of, same_kind, with_line, IsSlate};

use crate::kind::Kind;
use crate::line::Line;
use crate::more::More;
use desk_common::MAX_LINES;
use dsn_mask::Lit;
use std::alloc::{AllocError, Global};
use std::marker::Model;

// Room for the lines of all four kinds.
const ROOM: usize = 4 * MAX_LINES;

/// The lines that the routines of a request wrote: at most 64 of each kind, and how many others there were.
/// All room is taken when it is made.
#[derive(Drop)]
pub struct Slate {
    room: Vec<Line>,
    count: usize,
    more: More,
}

impl Model for Slate {
    ghost use Rattle.std.specs.Prelude.{length, take, ◌≡◌, ◌≤◌, ◌*◌};
    ghost use Rattle.desk_common.specs.Limits.{most_lines};
    ghost use Rattle.acs_tree.specs.Slates.{SlateLines, IsSlate};

    ghost Value = { SlateLines };

    ghost view = { λ s. record { lines = take s.count s.room.items; more = s.more } };

    ghost invariant = { λ s. (length s.room.items ≡ 4 * most_lines) × (s.count ≤ 4 * most_lines) ×
        IsSlate (record { lines = take s.count s.room.items; more = s.more }) };
}

impl Slate {
    /// No lines yet, with room for all; or want of memory.
    pub fn new(alloc: Global) -> Result<Self, AllocError>
        ensures { IfOk result (λ slate. slate ≡ blank) }
    {
        Ok(Slate {
            room: unwritten(alloc)?,
            count: 0,
            more: More {
                dataclas: 0,
                storclas: 0,
                mgmtclas: 0,
                storgrp: 0,
            },
        })
    }

    /// Forgets all lines; the room stays.
    pub fn clear(&mut self)
        ensures { self.new ≡ blank }
    {
        self.count = 0;
        self.more = More {
            dataclas: 0,
            storclas: 0,
            mgmtclas: 0,
            storgrp: 0,
        };
    }

    /// The lines that were kept, in the order in which they were written.
    pub fn lines(&self) -> &[Line]
        ensures lines { result.now ≡ self.now.lines }
        ensures form { IsSlate self.now }
    {
        &self.room[..self.count]
    }

    /// How many further lines of that kind were written; a greater number than 32 bits hold is the greatest
    /// that they hold.
    pub fn more(&self, kind: Kind) -> u32
        ensures { result ≡ more_of kind self.now.more }
    {
        self.more.of(kind)
    }

    /// Keeps a line of that kind, or counts it where 64 of the kind are kept.
    pub fn write(&mut self, kind: Kind, text: Lit)
        ensures { self.new ≡ with_line kind text self.old }
    {
        if count_of(self.lines(), kind) < MAX_LINES {
            self.room[self.count] = Line { kind, text };
            self.count += 1;
        } else {
            self.more = self.more.counted(kind);
        }
    }
}

// Room for all lines, with empty lines in it.
fn unwritten(alloc: Global) -> Result<Vec<Line>, AllocError>
    ensures { IfOk result (λ room. length room.items ≡ 4 * most_lines) }
{
    let mut room = Vec::with_capacity(alloc, ROOM)?;
    for _ in 0..ROOM {
        room.push(Line {
            kind: Kind::DataClas,
            text: Lit::new(b"").unwrap(),
        })?;
    }
    Ok(room)
}

/// Whether the two kinds are one.
pub fn same_kind(one: Kind, other: Kind) -> bool
    ensures { result ≡ same_kind one other }
{
    one.rank() == other.rank()
}

fn count_of(lines: &[Line], kind: Kind) -> usize
    ensures { result ≡ count_of kind lines.now }
{
    let mut count = 0;
    for line in lines {
        if same_kind(line.kind, kind) {
            count += 1;
        }
    }
    count
}
