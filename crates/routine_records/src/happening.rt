//! What records tell.
ghost use Rattle.std.specs.Prelude.{◌≡◌};
ghost use Rattle.routine_records.specs.EventRecords.{word_of};

/// What a record of an explanation tells (docs/manual/tool.md, "For other tools").
#[derive(Clone, Copy)]
pub enum Happening {
    /// A routine begins.
    Begin,
    /// A statement is begun.
    Statement,
    /// A variable is compared.
    Comparison,
    /// A WHEN is taken.
    When,
    /// A variable is set.
    Set,
    /// WRITE wrote a line.
    Wrote,
    /// An EXIT ended the routine.
    Exited,
    /// A routine ended.
    End,
    /// What the classification comes to.
    Outcome,
}

impl Happening {
    /// Its word.
    pub fn word(self) -> &'static [u8]
        ensures { result.now ≡ word_of self }
    {
        match self {
            Happening::Begin => b"BEGIN",
            Happening::Statement => b"STATEMENT",
            Happening::Comparison => b"COMPARISON",
            Happening::When => b"WHEN",
            Happening::Set => b"SET",
            Happening::Wrote => b"WROTE",
            Happening::Exited => b"EXITED",
            Happening::End => b"END",
            Happening::Outcome => b"OUTCOME",
        }
    }
}
