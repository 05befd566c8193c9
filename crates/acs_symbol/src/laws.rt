// The laws of tokens.
ghost use Rattle.std.specs.Prelude.{◌≤◌, ℕ, List, length};
ghost use Rattle.acs_lex.specs.declared.token.Token.{Token};
ghost use Rattle.acs_lex.specs.Tokens.{InOrder};

/// A text has no more tokens than bytes.
pub fn token_count()
    ensures { (text : List ℕ) (tokens : List Token)
        → InOrder 0 (length text) tokens → length tokens ≤ length text }
{}
