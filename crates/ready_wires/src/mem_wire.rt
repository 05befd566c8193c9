//! A connection in memory.
ghost use Rattle.std.specs.Prelude.{◌≡◌, ◌≤◌, ◌+◌, ◌-◌, ◌++◌, [], Some, length, take, min, vec_len};
ghost use Rattle.ready_wires.specs.Memory.{WireInMemory};
ghost use Rattle.ready_wires.specs.Wires.{Grows, IsWithin, TakesSome, after_rest, front_of, no_marks, no_watch};
ghost use Rattle.ready_wires.specs.Wires.{not_watched, watched_under};

use crate::marks::Marks;
use crate::watch::Watch;
use crate::wire::Wire;
use sms_base::Failed;
use std::collections::VecDeque;
use std::marker::Model;

/// What a call of a connection in memory comes to.
#[derive(Clone, Copy, Debug, PartialEq, Eq)]
pub enum Turn {
    /// It takes at most so many bytes, but one at least.
    Takes(usize),
    /// It would wait.
    Waits,
    /// It fails.
    Fails,
}

/// A connection that gives its bytes and takes others into its buffer, each call as its turn says. Where the turns are
/// over, a call takes all that it can.
#[derive(Drop)]
pub struct MemWire {
    bytes: Vec<u8>,
    read: usize,
    reads: VecDeque<Turn>,
    buffer: Vec<u8>,
    written: usize,
    writes: VecDeque<Turn>,
    marks: Marks,
    watch: Watch,
}

impl Model for MemWire {
    ghost use Rattle.std.specs.Prelude.{◌≤◌, ◌-◌, Some, drop, length, take, vec_len};
    ghost use Rattle.ready_wires.specs.Memory.{WireInMemory};

    ghost Value = { WireInMemory };

    ghost view = { λ w. record {
      seen = record {
        came = Some (take w.read w.bytes.items);
        taken = Some (take w.written w.buffer.items);
        marks = w.marks;
        watch = w.watch;
      };
      unread = drop w.read w.bytes.items;
      room = vec_len w.buffer - w.written;
      reads = w.reads.items;
      writes = w.writes.items;
    } };

    ghost invariant = { λ w. (w.read ≤ length w.bytes.items) × (w.written ≤ length w.buffer.items) };
}

impl MemWire {
    /// A connection of these bytes and this buffer.
    pub fn new(bytes: Vec<u8>, reads: Vec<Turn>, buffer: Vec<u8>, writes: Vec<Turn>) -> Self
        ensures unread { result.unread ≡ bytes.items }
        ensures room { result.room ≡ vec_len buffer }
        ensures reads { result.reads ≡ reads.items }
        ensures writes { result.writes ≡ writes.items }
        ensures came { result.seen.came ≡ Some [] }
        ensures taken { result.seen.taken ≡ Some [] }
        ensures marks { result.seen.marks ≡ no_marks }
        ensures watch { result.seen.watch ≡ no_watch }
    {
        MemWire {
            bytes,
            read: 0,
            reads: VecDeque::from(reads),
            buffer,
            written: 0,
            writes: VecDeque::from(writes),
            marks: Marks::new(),
            watch: Watch::new(),
        }
    }

    /// What it gave.
    pub fn given(&self) -> &[u8]
        ensures { Some result.now ≡ self.now.seen.came }
    {
        &self.bytes[..self.read]
    }

    /// What it took.
    pub fn taken(&self) -> &[u8]
        ensures { Some result.now ≡ self.now.seen.taken }
    {
        &self.buffer[..self.written]
    }

    /// The key under which it is watched.
    pub fn watched(&self) -> Option<usize>
        ensures { result ≡ self.now.seen.watch.key }
    {
        self.watch.key
    }

    // The same connection at its beginning.
    pub(crate) fn afresh(self) -> Self
        ensures came { result.seen.came ≡ Some [] }
        ensures taken { result.seen.taken ≡ Some [] }
        ensures marks { result.seen.marks ≡ no_marks }
        ensures watch { result.seen.watch ≡ no_watch }
    {
        let mut wire = self;
        wire.read = 0;
        wire.written = 0;
        wire.marks = Marks::new();
        wire.watch = Watch::new();
        wire
    }

    // It is watched under this key; so many keys had been told of as idle.
    pub(crate) fn watch(&mut self, key: usize, told: Option<usize>)
        ensures { self.new ≡ record self.old { seen = watched_under key told self.old.seen } }
    {
        self.watch.begin(key, told, self.marks.moved);
        self.marks.forget();
    }

    // It couldn't be watched.
    pub(crate) fn not_watched(&mut self)
        ensures { self.new ≡ record self.old { seen = not_watched self.old.seen } }
    {
        self.watch.failed = true;
    }

    // It is laid to rest.
    pub(crate) fn rest(&mut self)
        ensures { self.new ≡ record self.old { seen = after_rest self.old.seen } }
    {
        self.watch.rest(self.marks.tried);
        self.marks.forget();
    }

    // Gives its next bytes into the front of the buffer, at most so many, and answers how many.
    fn give(&mut self, buf: &mut [u8], most: usize) -> usize
        ensures within { result ≤ length buf.new }
        ensures came { Grows self.old.seen.came self.new.seen.came (take result buf.new) }
        ensures rest { self.new.seen ≡ record self.old.seen { came = self.new.seen.came } }
    {
        let count = copy_front(&self.bytes[self.read..], buf, most);
        self.read += count;
        count
    }

    // Takes bytes from the front of the piece, at most so many; fails where no room is left.
    fn keep(&mut self, piece: &[u8], most: usize) -> Result<Option<usize>, Failed>
        requires { 1 ≤ most }
        ensures within { IsWithin result piece.now }
        ensures some { TakesSome result piece.now }
        ensures taken { Grows self.old.seen.taken self.new.seen.taken (front_of result piece.now) }
        ensures rest { self.new.seen ≡ record self.old.seen { taken = self.new.seen.taken } }
    {
        if self.written == self.buffer.len() && !piece.is_empty() {
            return Err(Failed);
        }
        let count = put_at(&mut self.buffer, self.written, piece, most);
        self.written += count;
        Ok(Some(count))
    }
}

impl Wire for MemWire {
    ghost seen = { λ w. w.seen };

    fn read(&mut self, buf: &mut [u8]) -> Result<Option<usize>, Failed> {
        let result = match self.reads.pop_front() {
            Some(Turn::Waits) => Ok(None),
            Some(Turn::Fails) => Err(Failed),
            Some(Turn::Takes(most)) => Ok(Some(self.give(buf, most.max(1)))),
            None => Ok(Some(self.give(buf, usize::MAX))),
        };
        self.marks.read(buf.len(), result);
        result
    }

    fn write(&mut self, piece: &[u8]) -> Result<Option<usize>, Failed> {
        let result = match self.writes.pop_front() {
            Some(Turn::Waits) => Ok(None),
            Some(Turn::Fails) => Err(Failed),
            Some(Turn::Takes(most)) => self.keep(piece, most.max(1)),
            None => self.keep(piece, usize::MAX),
        };
        self.marks.wrote(result);
        result
    }
}

// Copies as many bytes as there are, there is room for, and `most` allows.
fn copy_front(from: &[u8], to: &mut [u8], most: usize) -> usize
    ensures count { result ≡ min (min (length from.now) (length to.new)) most }
    ensures bytes { take result to.new ≡ take result from.now }
{
    let count = from.len().min(to.len()).min(most);
    to[..count].copy_from_slice(&from[..count]);
    count
}

// Puts as many bytes of the piece behind `at` as there is room for and `most` allows.
fn put_at(buffer: &mut [u8], at: usize, piece: &[u8], most: usize) -> usize
    requires { at ≤ length buffer.old }
    ensures room { at + result ≤ length buffer.new }
    ensures count { result ≡ min (min (length piece.now) (length buffer.new - at)) most }
    ensures bytes { take (at + result) buffer.new ≡ take at buffer.old ++ take result piece.now }
{
    let count = piece.len().min(buffer.len() - at).min(most);
    buffer[at..at + count].copy_from_slice(&piece[..count]);
    count
}
