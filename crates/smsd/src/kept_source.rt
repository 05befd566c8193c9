//! A source that keeps what it gave.
use sms_base::{Failed, Source};
use std::alloc::Global;

/// Gives what another source gives, and keeps it, so that a fault can be shown in its line. Where memory for that is
/// wanting nothing is kept.
#[derive(Drop)]
pub struct KeptSource<S> {
    source: S,
    given: Option<Vec<u8>>,
}

impl<S: Source> KeptSource<S> {
    /// The source, of which nothing was given yet.
    pub fn new(alloc: Global, source: S) -> Self {
        KeptSource {
            source,
            given: Some(Vec::new(alloc)),
        }
    }

    /// What was given so far, if it was kept.
    pub fn given(&self) -> Option<&[u8]> {
        match &self.given {
            Some(bytes) => Some(bytes.as_slice()),
            None => None,
        }
    }
}

impl<S: Source> Source for KeptSource<S> {
    ghost left = { λ k. S.left k.source };

    ghost read_faults = { λ k. S.read_faults k.source };

    ghost reads = { λ k. S.reads k.source };

    fn read(&mut self, buf: &mut [u8]) -> Result<usize, Failed> {
        let count = self.source.read(buf)?;
        keep(&mut self.given, &buf[..count]);
        Ok(count)
    }
}

// Keeps a piece behind the others. Where memory for it is wanting nothing is kept.
fn keep(given: &mut Option<Vec<u8>>, piece: &[u8]) {
    let is_kept = match given {
        Some(bytes) => bytes.extend_from_slice(piece).is_ok(),
        None => false,
    };
    if !is_kept {
        *given = None;
    }
}
