// Names of variables and words.
ghost use Rattle.std.specs.Prelude.{◌≡◌, ◌≤◌, length};
ghost use Rattle.std.specs.List.{list_all};
ghost use Rattle.std.specs.Str.{str_to_ascii_uppercase};
ghost use Rattle.desk_common.specs.Limits.{most_word_bytes};
ghost use Rattle.acs_tree.specs.Ident.{IsIdent, is_upper_byte};

use desk_common::MAX_WORD;
use dsn_mask::Text;
use std::marker::Model;

/// At most 64 bytes with no small letter: a word, or a variable without its ampersand.
pub struct Ident {
    text: Text<MAX_WORD>,
}

impl Model for Ident {
    ghost use Rattle.std.specs.Prelude.{List, ℕ};
    ghost use Rattle.acs_tree.specs.Ident.{IsIdent};

    ghost Value = { List ℕ };

    ghost view = { λ s. s.text };

    ghost invariant = { λ s. IsIdent s.text };

    ghost inverse = { λ xs. record { text = xs } };
}

impl Clone for Ident {
    ghost is_clone = { λ x y. y ≡ x };

    ghost is_infallible = { λ _. Unit {0} };

    fn clone(&self) -> Result<Self, std::alloc::AllocError> {
        Ok(*self)
    }
}

impl Copy for Ident {}

impl PartialEq for Ident {
    ghost use Rattle.std.specs.Prelude.{nat_eq};
    ghost use Rattle.std.specs.Cmp.Lexicographic.{pointwise};
    ghost use Rattle.std.specs.Cmp.Rules.{comparing};
    ghost use Rattle.std.proofs.Common.{rules};

    ghost eq = { pointwise nat_eq };

    ghost laws = { Prim.search (comparing, rules) };

    fn eq(&self, other: &Ident) -> bool {
        self.text.equals(&other.text)
    }
}

impl Eq for Ident {
    ghost use Rattle.std.specs.Cmp.Rules.{comparing};
    ghost use Rattle.std.proofs.Common.{rules};

    ghost laws = { Prim.search (comparing, rules) };
}

impl Ident {
    /// The text with its letters in upper case. Most words have no small letter, and are copied as they stand.
    #[tactic(auto, using(crate::proofs::UpperLemmas::upper_stays))]
    pub fn upper(bytes: &[u8]) -> Self
        requires { length bytes.now ≤ most_word_bytes }
        ensures { result ≡ str_to_ascii_uppercase bytes.now }
    {
        if is_upper(bytes) {
            Ident {
                text: Text::new(bytes),
            }
        } else {
            raised(bytes)
        }
    }

    /// The bytes of the text, 0 to 64.
    pub fn bytes(&self) -> &[u8]
        ensures bytes { result.now ≡ self.now }
        ensures form { IsIdent self.now }
    {
        self.text.bytes()
    }
}

/// Whether no byte is a small letter.
pub fn is_upper(text: &[u8]) -> bool
    ensures { result ≡ list_all is_upper_byte text.now }
{
    text.iter().all(|byte| !byte.is_ascii_lowercase())
}

#[inline(never)]
fn raised(bytes: &[u8]) -> Ident
    requires { length bytes.now ≤ most_word_bytes }
    ensures { result ≡ str_to_ascii_uppercase bytes.now }
{
    let mut upper = [0; MAX_WORD];
    let upper = &mut upper[..bytes.len()];
    upper.copy_from_slice(bytes);
    upper.make_ascii_uppercase();
    Ident {
        text: Text::new(upper),
    }
}
