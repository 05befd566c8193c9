// The tokens of a text, each with its text.
ghost use Rattle.std.specs.Prelude.{◌≡◌, ◌≤◌, ◌<◌, ◌+◌, [], length, slice_range, All, IfOk};
ghost use Rattle.std.specs.Str.{str_to_ascii_uppercase};
ghost use Rattle.desk_common.specs.Limits.{most_literal_bytes, most_word_bytes};
ghost use Rattle.acs_lex.specs.declared.token.TokenForm.TheVariants as token_form;
ghost use Rattle.acs_lex.specs.Lexical.{IsForm};
ghost use Rattle.acs_lex.specs.Tokens.{IsTokenOf, token_text};
ghost use Rattle.acs_symbol.specs.Symbols.{word_kind, unquoted, symbol_of, symbols_of};

use crate::keyword::{kind_in_any_case, sign};
use crate::symbol::Symbol;
use crate::unquoted::Unquoted;
use crate::upper::Upper;
use acs_lex::{Token, TokenForm, Tokens};
use std::alloc::{AllocError, Global};

/// The tokens of a text, each with its text.
pub fn symbols<'a>(
    alloc: Global,
    text: &'a [u8],
    tokens: &Tokens,
) -> Result<Vec<Symbol<'a>>, AllocError>
    requires { All (IsTokenOf text.now) tokens.now }
    ensures { IfOk result (λ symbols. symbols.items ≡ symbols_of text.entry.now tokens.now) }
{
    let tokens = tokens.as_slice();
    let mut symbols = Vec::with_capacity(alloc, tokens.len())?;
    for token in tokens {
        symbols.push(symbol(text, token))?;
    }
    Ok(symbols)
}

/// A token of a text, with its text.
pub fn symbol<'a>(text: &'a [u8], token: &Token) -> Symbol<'a>
    requires { IsTokenOf text.now token.now }
    ensures { result ≡ symbol_of text.entry.now token.now }
{
    match token.form {
        TokenForm::Word => word(bytes_of(text, token)),
        TokenForm::Variable => variable(bytes_of(text, token)),
        TokenForm::Literal => literal(bytes_of(text, token)),
        TokenForm::Sign => sign(bytes_of(text, token)),
    }
}

/// The bytes of a text that a token covers.
fn bytes_of<'a>(text: &'a [u8], token: &Token) -> &'a [u8]
    requires { IsTokenOf text.now token.now }
    ensures { result.now ≡ token_text text.entry.now token.now }
{
    &text[token.from as usize..token.to as usize]
}

fn word(bytes: &[u8]) -> Symbol<'_>
    requires { length bytes.now ≤ most_word_bytes }
    ensures { let upper = str_to_ascii_uppercase bytes.entry.now in
        result ≡ Symbol.Word (word_kind upper) upper }
{
    Symbol::Word(kind_in_any_case(bytes), Upper::new(bytes))
}

fn variable(bytes: &[u8]) -> Symbol<'_>
    requires some { 0 < length bytes.now }
    requires fits { length bytes.now ≤ most_word_bytes }
    ensures { let upper = str_to_ascii_uppercase bytes.entry.now in
        result ≡ Symbol.Variable (slice_range upper 1 (length upper)) }
{
    Symbol::Variable(Upper::new(&bytes[1..]))
}

#[tactic(auto, using(crate::proofs::LiteralLemmas::two_quotes, crate::proofs::LiteralLemmas::unquoted_is_literal))]
fn literal(bytes: &[u8]) -> Symbol<'_>
    requires form { IsForm token_form.Literal bytes.now [] }
    requires fits { length bytes.now ≤ most_literal_bytes + 2 }
    ensures { result ≡ Symbol.Literal (unquoted bytes.entry.now) }
{
    Symbol::Literal(Unquoted::new(&bytes[1..bytes.len() - 1]))
}
