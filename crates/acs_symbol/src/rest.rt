//! The tokens that are left to be read.
ghost use Rattle.std.specs.Prelude.{◌≡◌, ◌∷◌, [], List, length, MatchOption};
ghost use Rattle.acs_symbol.specs.declared.symbol.Symbol.{Symbol};

use crate::symbol::Symbol;
use std::marker::Model;

/// The tokens of a routine from some token on. Contracts see the list of them.
#[derive(Drop)]
pub struct Rest<'a> {
    symbols: &'a [Symbol<'a>],
    at: usize,
}

impl<'a> Model for Rest<'a> {
    ghost use Rattle.std.specs.Prelude.{List, length, drop, ◌≤◌};
    ghost use Rattle.acs_symbol.specs.declared.symbol.Symbol.{Symbol};

    ghost Value = { List Symbol };

    ghost view = { λ s. drop s.at s.symbols.now };

    ghost invariant = { λ s. s.at ≤ length s.symbols.now };
}

impl<'a> Rest<'a> {
    /// All tokens.
    pub fn new(symbols: &'a [Symbol<'a>]) -> Self
        ensures { result ≡ symbols.now }
    {
        Rest { symbols, at: 0 }
    }

    /// How many tokens are left.
    pub fn len(&self) -> usize
        ensures { result ≡ length self.now }
    {
        self.symbols.len() - self.at
    }

    /// The first token, or None where none is left.
    pub fn first(&self) -> Option<&'a Symbol<'a>>
        ensures { MatchOption result (self.now ≡ []) (λ first. (behind : List Symbol) ×
            (self.now ≡ first.now ∷ behind)) }
    {
        self.symbols.get(self.at)
    }

    /// The same list; no token is copied.
    pub fn copied(&self) -> Rest<'a>
        ensures { result ≡ self.now }
    {
        Rest {
            symbols: self.symbols,
            at: self.at,
        }
    }

    /// The first token, and what is behind it.
    pub fn split_first(&self) -> Option<(&'a Symbol<'a>, Rest<'a>)>
        ensures { MatchOption result (self.now ≡ []) (λ parts. self.now ≡ parts.0.now ∷ parts.1) }
    {
        let first = self.symbols.get(self.at)?;
        let behind = Rest {
            symbols: self.symbols,
            at: self.at + 1,
        };
        Some((first, behind))
    }
}
