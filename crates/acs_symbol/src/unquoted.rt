//! A literal where it stands in a text.
ghost use Rattle.std.specs.Prelude.{◌≡◌};
ghost use Rattle.dsn_mask.specs.Name.{IsLiteral};

use dsn_mask::Lit;
use std::marker::Model;

/// The bytes of a literal between its quotes. Nothing is copied.
#[derive(Drop)]
pub struct Unquoted<'a> {
    bytes: &'a [u8],
}

impl<'a> Model for Unquoted<'a> {
    ghost use Rattle.std.specs.Prelude.{List, ℕ};
    ghost use Rattle.dsn_mask.specs.Name.{IsLiteral};

    ghost Value = { List ℕ };

    ghost view = { λ s. s.bytes.now };

    ghost invariant = { λ s. IsLiteral s.bytes.now };
}

impl<'a> Unquoted<'a> {
    /// The literal with these bytes between its quotes.
    pub fn new(bytes: &'a [u8]) -> Self
        requires { IsLiteral bytes.now }
        ensures { result ≡ bytes.now }
    {
        Unquoted { bytes }
    }

    /// The literal as a value of its own.
    #[inline(never)]
    pub fn lit(&self) -> Lit
        ensures { result ≡ self.now }
    {
        Lit::new(self.bytes).unwrap()
    }
}
