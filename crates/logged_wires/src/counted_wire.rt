//! Connections that count what came and what was sent.
ghost use Rattle.std.specs.Prelude.{◌≡◌};

use ready_wires::Wire;
use sms_base::Failed;

// How an answer begins; its status stands behind it.
const BEGINNING: &[u8] = b"HTTP/1.1 ";

/// A connection that counts its bytes, and remembers with which status it was answered last. Contracts see the
/// connection itself.
#[derive(Drop)]
pub struct CountedWire<W> {
    pub(crate) wire: W,
    came: u64,
    sent: u64,
    status: Option<u16>,
}

impl<W> CountedWire<W> {
    /// A connection of which nothing was counted.
    pub(crate) fn new(wire: W) -> Self
        ensures { result.wire ≡ wire }
    {
        CountedWire {
            wire,
            came: 0,
            sent: 0,
            status: None,
        }
    }

    /// How many bytes came.
    pub fn came(&self) -> u64 {
        self.came
    }

    /// How many bytes were sent.
    pub fn sent(&self) -> u64 {
        self.sent
    }

    /// The status of the last answer, if one was sent.
    pub fn status(&self) -> Option<u16> {
        self.status
    }
}

impl<W: Wire> Wire for CountedWire<W> {
    ghost seen = { λ w. W.seen w.wire };

    fn read(&mut self, buf: &mut [u8]) -> Result<Option<usize>, Failed> {
        let result = self.wire.read(buf);
        self.came = counted(self.came, result);
        result
    }

    fn write(&mut self, piece: &[u8]) -> Result<Option<usize>, Failed> {
        let result = self.wire.write(piece);
        self.sent = counted(self.sent, result);
        if let Some(status) = last_status(piece) {
            self.status = Some(status);
        }
        result
    }
}

// So many bytes with those of a call.
fn counted(before: u64, call: Result<Option<usize>, Failed>) -> u64 {
    match call {
        Ok(Some(count)) => before.saturating_add(count as u64),
        Ok(None) | Err(Failed) => before,
    }
}

// The status of the last answer that begins in the piece.
fn last_status(piece: &[u8]) -> Option<u16> {
    let at = piece
        .windows(BEGINNING.len())
        .rposition(|word| word == BEGINNING)?;
    status_at(piece.get(at.saturating_add(BEGINNING.len())..)?)
}

// The status of three digits at the front.
fn status_at(bytes: &[u8]) -> Option<u16> {
    let digits = str::from_utf8(bytes.get(..3)?).ok()?;
    digits.parse().ok()
}
