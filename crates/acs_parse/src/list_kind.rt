// The lists of a routine and what they hold.
ghost use Rattle.std.specs.Prelude.{◌≡◌};
ghost use Rattle.acs_parse.specs.Grammar.{takes_words, takes_variables, joins, may_begin};

use acs_symbol::Symbol;

/// A list: the values of SET, the items of a WHEN, the parts of a WRITE, or the entries of a filter
/// list (docs/manual/acs-language.md, Grammar).
#[derive(Clone, Copy)]
pub enum ListKind {
    Values,
    Items,
    Parts,
    Entries,
}

impl ListKind {
    /// Whether a word may stand in the list: in each but the parts of a WRITE.
    pub fn takes_words(self) -> bool
        ensures { result ≡ takes_words self }
    {
        !matches!(self, ListKind::Parts)
    }

    /// Whether a variable may stand in the list: in each but the entries of a filter list.
    pub fn takes_variables(self) -> bool
        ensures { result ≡ takes_variables self }
    {
        !matches!(self, ListKind::Entries)
    }

    /// Whether it begins an operand that may follow another with no comma between them.
    pub fn joins(self, symbol: &Symbol<'_>) -> bool
        ensures { result ≡ joins self symbol.now }
    {
        !matches!(self, ListKind::Values) && self.may_begin(symbol)
    }

    fn may_begin(self, symbol: &Symbol<'_>) -> bool
        ensures { result ≡ may_begin self symbol.now }
    {
        match symbol {
            Symbol::Literal(_) => true,
            Symbol::Word(_, _) => self.takes_words(),
            Symbol::Variable(_) => self.takes_variables(),
            _ => false,
        }
    }
}
