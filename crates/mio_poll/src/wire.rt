//! A stream whose calls never wait.
ghost use Rattle.std.specs.Prelude.{◌≡◌, IfOk, None, Some};
ghost use Rattle.ready_wires.specs.Wires.{TakesSome, no_marks, no_watch};

use mio::net::TcpStream;
use ready_wires::{Marks, Watch, Wire};
use sms_base::Failed;
use std::io;
use std::io::{Read, Write};

/// A stream of TCP as a connection. It tells no bytes.
#[derive(Drop)]
pub struct TcpWire {
    pub(crate) stream: TcpStream,
    pub(crate) marks: Marks,
    pub(crate) watch: Watch,
}

impl TcpWire {
    // A stream that came just now.
    pub(crate) fn new(stream: TcpStream) -> Self
        ensures marks { result.marks ≡ no_marks }
        ensures watch { result.watch ≡ no_watch }
    {
        TcpWire {
            stream,
            marks: Marks::new(),
            watch: Watch::new(),
        }
    }
}

impl Wire for TcpWire {
    ghost seen = { λ w. record { came = None; taken = None; marks = w.marks; watch = w.watch } };

    fn read(&mut self, buf: &mut [u8]) -> Result<Option<usize>, Failed> {
        let result = match self.stream.read(buf) {
            Ok(count) => Ok(Some(count)),
            Err(error) => waited_or_failed(&error),
        };
        self.marks.read(buf.len(), result);
        result
    }

    fn write(&mut self, piece: &[u8]) -> Result<Option<usize>, Failed> {
        let result = match self.stream.write(piece) {
            Ok(count) => some_or_failed(count, piece),
            Err(error) => waited_or_failed(&error),
        };
        self.marks.wrote(result);
        result
    }
}

// So many bytes of the piece were taken; that none was of one that has some is a failure.
fn some_or_failed(count: usize, piece: &[u8]) -> Result<Option<usize>, Failed>
    ensures some { TakesSome result piece.now }
    ensures count { IfOk result (λ taken. taken ≡ Some count) }
{
    if count == 0 && !piece.is_empty() {
        return Err(Failed);
    }
    Ok(Some(count))
}

// The call would have waited, or it failed.
fn waited_or_failed(error: &io::Error) -> Result<Option<usize>, Failed>
    ensures { IfOk result (λ count. count ≡ None) }
{
    if error.kind() == io::ErrorKind::WouldBlock {
        return Ok(None);
    }
    Err(Failed)
}
