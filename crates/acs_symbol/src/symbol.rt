// The tokens of a routine as its grammar reads them.
use crate::unquoted::Unquoted;
use crate::upper::Upper;
use acs_tree::Compare;

/// What a word can be besides a name, by its text: a keyword, a comparison, digits alone, or
/// nothing else.
#[derive(Clone, Copy, Debug, PartialEq, Eq)]
pub enum WordKind {
    Proc,
    FiltList,
    Include,
    Exclude,
    Set,
    If,
    Then,
    Else,
    Select,
    When,
    Otherwise,
    Do,
    End,
    Write,
    Exit,
    Code,
    And,
    Or,
    Compare(Compare),
    Number,
    Other,
}

/// A token with its text: a word in upper case, a variable in upper case without its ampersand, a
/// literal without its quotes, or one of the signs.
#[derive(Drop)]
pub enum Symbol<'a> {
    Word(WordKind, Upper<'a>),
    Variable(Upper<'a>),
    Literal(Unquoted<'a>),
    AndSign,
    OrSign,
    Open,
    Close,
    Comma,
    Operator(Compare),
}
