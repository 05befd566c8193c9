// The piece at the front of what is left of a text: a function for each kind of token, for
// comments and for blanks. Each is passed the size of the whole text, from which places follow.
ghost use Rattle.std.specs.Prelude.{◌≡◌, ◌≤◌, ◌-◌, ◌∷◌, false, length, MatchOption, None, Some};
ghost use Rattle.acs_lex.specs.Lexical.{is_blank, is_name_byte, is_word_byte, is_quotable, counted_bytes};
ghost use Rattle.acs_lex.specs.Lexical.{most_bytes};
ghost use Rattle.acs_lex.specs.Inner.Scanning.{after, after_comment, token_front, bad_front, comment_front};
ghost use Rattle.acs_lex.specs.Inner.Scanning.{slash_front, literal_front, single_front, sign_front, ampersand_front};
ghost use Rattle.acs_lex.specs.Inner.Scanning.{front, front_of};

use crate::bytes::{
    is_double_sign, is_line_end, is_name_byte, is_quotable, is_single_sign, is_word_byte,
};
use crate::fault::LexErr;
use crate::piece::Piece;
use crate::token::{MAX_SIGN, Token, TokenForm};
use desk_common::{MAX_LITERAL, MAX_WORD};

/// The piece at the front of a text that begins with a byte that is no blank, and has others behind it.
pub fn front<'a>(total: u32, text: &'a [u8], first: u8, behind: &'a [u8]) -> Piece<'a>
    requires fits { length text.now ≤ total }
    requires parts { text.now ≡ first ∷ behind.now }
    requires inked { is_blank first ≡ false }
    ensures { front_of result ≡ front total text.entry.now }
{
    if is_word_byte(first) {
        token(total, TokenForm::Word, text, after_word(behind))
    } else if first == b'\'' {
        literal(total, text, after_quotable(behind))
    } else if first == b'&' {
        ampersand(total, text, first, behind)
    } else if first == b'/' {
        slash(total, text, behind)
    } else {
        sign(total, text, first, behind)
    }
}

fn ampersand<'a>(total: u32, text: &'a [u8], first: u8, behind: &'a [u8]) -> Piece<'a>
    requires fits { length text.now ≤ total }
    requires within { length behind.now ≤ length text.now }
    ensures { front_of result ≡ ampersand_front total text.entry.now first behind.entry.now }
{
    match behind.split_first() {
        Some((second, rest)) if is_name_byte(*second) => {
            token(total, TokenForm::Variable, text, after_name(rest))
        }
        Some(_) => sign(total, text, first, behind),
        None => bad_byte(total, text),
    }
}

fn slash<'a>(total: u32, text: &'a [u8], behind: &'a [u8]) -> Piece<'a>
    requires { length text.now ≤ total }
    ensures { front_of result ≡ slash_front total text.entry.now behind.entry.now }
{
    match behind.split_first() {
        Some((b'*', inside)) => comment(total, text, inside),
        _ => bad_byte(total, text),
    }
}

fn comment<'a>(total: u32, text: &'a [u8], inside: &'a [u8]) -> Piece<'a>
    requires { length text.now ≤ total }
    ensures { front_of result ≡ comment_front total text.entry.now (after_comment inside.entry.now) }
{
    match after_comment(inside) {
        Some(behind) => Piece::Gap(behind),
        None => Piece::Fault(LexErr::OpenComment(place(total, text))),
    }
}

fn literal<'a>(total: u32, text: &'a [u8], end: &'a [u8]) -> Piece<'a>
    requires fits { length text.now ≤ total }
    requires within { length end.now ≤ length text.now }
    ensures { front_of result ≡ literal_front total text.entry.now end.entry.now }
{
    match end.split_first() {
        Some((b'\'', rest)) => token(total, TokenForm::Literal, text, rest),
        Some((byte, _)) if !is_line_end(*byte) => bad_byte(total, end),
        _ => Piece::Fault(LexErr::OpenLiteral(place(total, text))),
    }
}

fn sign<'a>(total: u32, text: &'a [u8], first: u8, behind: &'a [u8]) -> Piece<'a>
    requires fits { length text.now ≤ total }
    requires within { length behind.now ≤ length text.now }
    ensures { front_of result ≡ sign_front total text.entry.now first behind.entry.now }
{
    match behind.split_first() {
        Some((second, rest)) if is_double_sign(first, *second) => {
            token(total, TokenForm::Sign, text, rest)
        }
        _ => single_sign(total, text, first, behind),
    }
}

fn single_sign<'a>(total: u32, text: &'a [u8], first: u8, behind: &'a [u8]) -> Piece<'a>
    requires fits { length text.now ≤ total }
    requires within { length behind.now ≤ length text.now }
    ensures { front_of result ≡ single_front total text.entry.now first behind.entry.now }
{
    if is_single_sign(first) {
        token(total, TokenForm::Sign, text, behind)
    } else {
        bad_byte(total, text)
    }
}

fn token<'a>(total: u32, form: TokenForm, text: &'a [u8], rest: &'a [u8]) -> Piece<'a>
    requires fits { length text.now ≤ total }
    requires within { length rest.now ≤ length text.now }
    ensures { front_of result ≡ token_front total form text.entry.now rest.entry.now }
{
    if counted_bytes(form, text.len() - rest.len()) <= most_bytes(form) {
        let token = Token {
            form,
            from: place(total, text),
            to: place(total, rest),
        };
        Piece::Token(token, rest)
    } else {
        Piece::Fault(LexErr::LongWord(place(total, text)))
    }
}

fn bad_byte(total: u32, text: &[u8]) -> Piece<'_>
    requires { length text.now ≤ total }
    ensures { front_of result ≡ bad_front total text.now }
{
    Piece::Fault(LexErr::BadByte(place(total, text)))
}

/// The bytes that count in a token of so many.
fn counted_bytes(form: TokenForm, bytes: usize) -> usize
    ensures { result ≡ counted_bytes form bytes }
{
    match form {
        TokenForm::Literal => bytes.saturating_sub(2),
        _ => bytes,
    }
}

/// The most bytes that may count.
fn most_bytes(form: TokenForm) -> usize
    ensures { result ≡ most_bytes form }
{
    match form {
        TokenForm::Word | TokenForm::Variable => MAX_WORD,
        TokenForm::Literal => MAX_LITERAL,
        TokenForm::Sign => MAX_SIGN,
    }
}

/// The place in a text of so many bytes at which these are left.
fn place(total: u32, text: &[u8]) -> u32
    requires { length text.now ≤ total }
    ensures { result ≡ total - length text.now }
{
    total - text.len() as u32
}

fn after_word(text: &[u8]) -> &[u8]
    ensures rest { result.now ≡ after is_word_byte text.now }
    ensures within { length result.now ≤ length text.now }
{
    let mut rest = text;
    'bytes: while let [byte, behind @ ..] = rest {
        if !is_word_byte(*byte) {
            return rest;
        }
        rest = behind;
    }
    rest
}

fn after_name(text: &[u8]) -> &[u8]
    ensures rest { result.now ≡ after is_name_byte text.now }
    ensures within { length result.now ≤ length text.now }
{
    let mut rest = text;
    'bytes: while let [byte, behind @ ..] = rest {
        if !is_name_byte(*byte) {
            return rest;
        }
        rest = behind;
    }
    rest
}

fn after_quotable(text: &[u8]) -> &[u8]
    ensures rest { result.now ≡ after is_quotable text.now }
    ensures within { length result.now ≤ length text.now }
{
    let mut rest = text;
    'bytes: while let [byte, behind @ ..] = rest {
        if !is_quotable(*byte) {
            return rest;
        }
        rest = behind;
    }
    rest
}

/// What is behind the first end of a comment.
fn after_comment(text: &[u8]) -> Option<&[u8]>
    ensures { MatchOption result (after_comment text.now ≡ None) (λ rest. after_comment text.now ≡ Some rest.now) }
{
    let mut rest = text;
    'ends: while let Some((first, behind)) = rest.split_first() {
        let (second, others) = behind.split_first()?;
        if *first == b'*' && *second == b'/' {
            return Some(others);
        }
        rest = behind;
    }
    None
}
