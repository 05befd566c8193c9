//! What the words of the desk's command line ask for.

/// What the words of the desk's command line ask for (docs/manual/script.md, "The program").
#[derive(Clone, Copy, Debug, PartialEq, Eq)]
pub enum Task {
    /// Answer the script on standard input by so many workers, 1 to 16; with `volumes` the table of volumes stands
    /// behind the text.
    Run { volumes: bool, workers: u8 },
    /// Answer the generated script of this seed with so many items, 1 to 40,000, and sum up the answers.
    Generate { seed: u32, count: u32 },
}
