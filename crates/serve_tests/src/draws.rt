//! Numbers that look drawn.

/// Numbers that look drawn, the same for the same seed.
#[derive(Drop)]
pub struct Draws {
    state: u64,
}

impl Draws {
    /// Those of a seed.
    pub fn new(seed: u64) -> Self {
        let mut draws = Draws { state: seed };
        draws.below(1);
        draws
    }

    /// The next one, below `most`.
    pub fn below(&mut self, most: u64) -> u64 {
        self.state = self
            .state
            .wrapping_mul(6_364_136_223_846_793_005)
            .wrapping_add(1_442_695_040_888_963_407);
        (self.state >> 33) % most.max(1)
    }

    /// The next one as a size, below `most`.
    pub fn size(&mut self, most: u64) -> usize {
        usize::try_from(self.below(most)).unwrap_or(0)
    }

    /// One of the words, or none of no words.
    pub fn one_of(&mut self, words: &[&'static str]) -> &'static str {
        let at = self.size(words.len() as u64);
        words.get(at).copied().unwrap_or("")
    }
}
