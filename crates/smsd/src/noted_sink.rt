//! A sink that notes which replies were written.
use desk_notes::RepliesSeen;
use sms_base::{Failed, Sink};

/// Hands its bytes to another sink, and notes the replies among them of which a person is told more.
#[derive(Drop)]
pub struct NotedSink<K> {
    sink: K,
    seen: RepliesSeen,
}

impl<K: Sink> NotedSink<K> {
    /// The sink, to which nothing was handed yet.
    pub fn new(sink: K) -> Self {
        NotedSink {
            sink,
            seen: RepliesSeen::none(),
        }
    }

    /// The replies that were written.
    pub fn seen(&self) -> RepliesSeen {
        self.seen
    }
}

impl<K: Sink> Sink for NotedSink<K> {
    ghost taken = { λ k. K.taken k.sink };

    ghost write_faults = { λ k. K.write_faults k.sink };

    ghost beside_writing = { λ k. K.beside_writing k.sink };

    fn write(&mut self, piece: &[u8]) -> Result<usize, Failed> {
        let count = self.sink.write(piece)?;
        self.seen = self.seen.behind(&piece[..count]);
        Ok(count)
    }
}
