//! A line of a script by its words.
use crate::misfit::Misfit;
use crate::spot::Spot;
use std::alloc::{AllocError, Global};

/// The bytes of a line, its letters in upper case, and where its words stand.
#[derive(Drop)]
pub struct CommandLine {
    bytes: Vec<u8>,
    words: Vec<Spot>,
}

impl CommandLine {
    /// The line with these bytes, which have no line end.
    pub fn new(alloc: Global, line: &[u8]) -> Result<Self, AllocError> {
        let words = word_spots(alloc, line)?;
        let mut bytes = line.to_vec(alloc)?;
        bytes.make_ascii_uppercase();
        Ok(CommandLine { bytes, words })
    }

    /// How many words there are.
    pub fn count(&self) -> usize {
        self.words.len()
    }

    /// The word with this number, from 0; empty where there are fewer.
    pub fn word(&self, number: usize) -> &[u8] {
        match self.words.get(number) {
            Some(spot) => self.bytes.get(spot.from..spot.to).unwrap_or(&[]),
            None => &[],
        }
    }

    /// The offset of the word with this number; that of the end where there are fewer.
    pub fn offset(&self, number: usize) -> usize {
        match self.words.get(number) {
            Some(spot) => spot.from,
            None => self.bytes.len(),
        }
    }

    /// This is wanted in the place of the word with this number.
    pub fn misfit(&self, number: usize, wanted: &'static str) -> Misfit {
        Misfit {
            at: self.offset(number),
            wanted,
        }
    }
}

// Where the words of a line stand, which spaces part.
fn word_spots(alloc: Global, line: &[u8]) -> Result<Vec<Spot>, AllocError> {
    let mut spots = Vec::new(alloc);
    let mut begun = None;
    for (at, byte) in line.iter().enumerate() {
        match begun {
            Some(from) if *byte == b' ' => {
                spots.push(Spot { from, to: at })?;
                begun = None;
            }
            None if *byte != b' ' => begun = Some(at),
            _ => (),
        }
    }
    if let Some(from) = begun {
        let to = line.len();
        spots.push(Spot { from, to })?;
    }
    Ok(spots)
}
