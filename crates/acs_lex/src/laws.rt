// The laws of cuts and faults.
ghost use Rattle.std.specs.Prelude.{◌≡◌, ◌⊎◌, ℕ, List, length, All};
ghost use Rattle.acs_lex.specs.declared.token.Token.{Token};
ghost use Rattle.acs_lex.specs.declared.fault.LexErr.{LexErr};
ghost use Rattle.acs_lex.specs.Tokens.{IsCut, InOrder, IsTokenOf};
ghost use Rattle.acs_lex.specs.LexFault.{IsFirstLexFault};

/// A text has a cut or a fault, never both, and at most one of each.
pub fn tokens_or_fault()
    ensures one_cut { (text : List ℕ) (one two : List Token) → IsCut text one → IsCut text two → one ≡ two }
    ensures one_fault { (text : List ℕ) (one two : LexErr)
        → IsFirstLexFault text one → IsFirstLexFault text two → one ≡ two }
    ensures never_both { (text : List ℕ) (tokens : List Token) (err : LexErr)
        → IsCut text tokens → IsFirstLexFault text err → ⊥ }
    ensures either { (text : List ℕ)
        → ((tokens : List Token) × IsCut text tokens) ⊎ ((err : LexErr) × IsFirstLexFault text err) }
{}

/// The tokens of a cut lie in order inside the text, none is empty, and each has the text of its
/// form.
pub fn token_laws()
    ensures order { (text : List ℕ) (tokens : List Token) → IsCut text tokens → InOrder 0 (length text) tokens }
    ensures each { (text : List ℕ) (tokens : List Token) → IsCut text tokens → All (IsTokenOf text) tokens }
{}
