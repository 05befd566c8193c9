// The names of the checks.
ghost use Rattle.std.specs.Prelude.{◌≡◌};
ghost use Rattle.acs_check.specs.Inner.CheckNumber.{number_of};

/// The thirteen checks (docs/manual/acs-language.md, Checks).
#[derive(Clone, Copy)]
pub enum CheckName {
    /// The head is not the name of the kind's variable.
    WrongHead,
    /// An unknown variable.
    UnknownVariable,
    /// Another routine's variable is set.
    NotSettable,
    /// An unknown list.
    UnknownList,
    /// A list's name is taken.
    ListNameTaken,
    /// An operand or an index of the wrong kind.
    KindMismatch,
    /// A comparison of texts by order.
    OrderOfTexts,
    /// A value, an index or a number out of its range.
    ValueOutOfRange,
    /// A word that is no suitable mask.
    MaskMisplaced,
    /// Too many entries of a list.
    TooManyEntries,
    /// Too many or repeated values.
    TooManyValues,
    /// A bad exit code.
    BadExitCode,
    /// A later routine's variable is read.
    ReadTooEarly,
}

impl CheckName {
    /// The number behind the C.
    pub fn number(self) -> u8
        ensures { result ≡ number_of self }
    {
        match self {
            CheckName::WrongHead => 1,
            CheckName::UnknownVariable => 2,
            CheckName::NotSettable => 3,
            CheckName::UnknownList => 4,
            CheckName::ListNameTaken => 5,
            CheckName::KindMismatch => 6,
            CheckName::OrderOfTexts => 7,
            CheckName::ValueOutOfRange => 8,
            CheckName::MaskMisplaced => 9,
            CheckName::TooManyEntries => 10,
            CheckName::TooManyValues => 11,
            CheckName::BadExitCode => 12,
            CheckName::ReadTooEarly => 13,
        }
    }
}
