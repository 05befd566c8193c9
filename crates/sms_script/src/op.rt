//! The ops that words write.
ghost use Rattle.std.specs.Prelude.{◌≡◌, map, option_map, Some, IfOk, OnErr};
ghost use Rattle.std.specs.Char.{to_ascii_uppercase};
ghost use Rattle.std.specs.Option.{option_copied};
ghost use Rattle.sms_script.specs.Ops.{AskAlloc, dsn_in, number_in, only, only_two, op_in, op_of, op_with, purge_in};
ghost use Rattle.sms_script.specs.Ops.{upper_words, used_in};

use crate::allocation::read_allocation;
use crate::line_words::{FEW_WORDS, MOST_WORDS, line_words};
use crate::targets::{read_target, read_vary};
use crate::verb::Verb;
use dsn_mask::{Dsn, Name};
use sms_construct::{Op, RequestNumber, read_number};
use std::alloc::{AllocError, Global};

/// The op that the part of a command line behind the request number writes, if any: of the administrator, or of
/// another job (docs/manual/script.md, "Commands"); or want of memory for an ALLOC. ACTIVATE is none, since its deck
/// stands in other lines. The letters of the line become upper case, as they are read.
#[tactic(auto, using(crate::proofs::FewLemmas::no_op))]
pub fn read_op(alloc: Global, line: &mut [u8], admin: bool) -> Result<Option<Op>, AllocError>
    ensures op { IfOk result (λ op. op ≡ op_of admin line.old) }
    ensures memory { OnErr result (AskAlloc (upper_words line.old)) }
    ensures line { line.new ≡ map to_ascii_uppercase line.old }
{
    line.make_ascii_uppercase();
    if let Some(words) = line_words::<FEW_WORDS>(line) {
        return read_words(alloc, &words, admin);
    }
    match line_words::<MOST_WORDS>(line) {
        Some(words) => read_words(alloc, &words, admin),
        None => Ok(None),
    }
}

/// The op that the words behind a request number write, if any; or want of memory.
#[inline(always)]
pub fn read_words(alloc: Global, words: &[&[u8]], admin: bool) -> Result<Option<Op>, AllocError>
    ensures op { IfOk result (λ op. op ≡ op_in admin (map (λ word. word.now) words.now)) }
    ensures memory { OnErr result (AskAlloc (map (λ word. word.now) words.now)) }
{
    let [word, operands @ ..] = words else {
        return Ok(None);
    };
    match Verb::named(word) {
        Some(verb) if verb.may_ask(admin) => read_form(alloc, verb, operands),
        _ => Ok(None),
    }
}

#[inline(always)]
fn read_form(alloc: Global, verb: Verb, operands: &[&[u8]]) -> Result<Option<Op>, AllocError>
    ensures op { IfOk result (λ op. op ≡ op_with verb (map (λ word. word.now) operands.now)) }
    ensures memory { OnErr result (verb ≡ Verb.Alloc) }
{
    match verb {
        Verb::Alloc => Ok(read_allocation(alloc, operands)?.map(Op::Alloc)),
        Verb::Extend => Ok(read_dsn(operands).map(Op::Extend)),
        Verb::Delete => Ok(read_dsn(operands).map(Op::Delete)),
        Verb::Release => Ok(read_dsn(operands).map(Op::Release)),
        Verb::Used => Ok(read_used(operands)),
        Verb::Display => Ok(read_display(operands)),
        Verb::Vary => Ok(read_vary_op(operands)),
        Verb::Purge => Ok(read_purge(operands)),
    }
}

fn read_dsn(operands: &[&[u8]]) -> Option<Dsn>
    ensures { result ≡ dsn_in (map (λ word. word.now) operands.now) }
{
    Dsn::parse(only_word(operands)?).ok()
}

#[inline(never)]
fn read_used(operands: &[&[u8]]) -> Option<Op>
    ensures { result ≡ used_in (map (λ word. word.now) operands.now) }
{
    let (dsn, tracks) = only_words(operands)?;
    let dsn = Dsn::parse(dsn).ok()?;
    let tracks = read_number(tracks)?;
    Some(Op::Used { dsn, tracks })
}

#[inline(never)]
fn read_display(operands: &[&[u8]]) -> Option<Op>
    ensures { result ≡ op_with Verb.Display (map (λ word. word.now) operands.now) }
{
    Some(Op::Display(read_target(only_word(operands)?)?))
}

#[inline(never)]
fn read_vary_op(operands: &[&[u8]]) -> Option<Op>
    ensures { result ≡ op_with Verb.Vary (map (λ word. word.now) operands.now) }
{
    read_vary(only_word(operands)?)
}

#[inline(never)]
fn read_purge(operands: &[&[u8]]) -> Option<Op>
    ensures { result ≡ purge_in (map (λ word. word.now) operands.now) }
{
    let (job, floor) = only_words(operands)?;
    let job = Name::new(job)?;
    let floor = read_request_number(floor)?;
    Some(Op::Purge { job, floor })
}

/// The request number that a word writes, if any.
pub fn read_request_number(word: &[u8]) -> Option<RequestNumber>
    ensures { result ≡ number_in word.now }
{
    RequestNumber::new(read_number(word)?)
}

// The only word.
fn only_word<'a>(words: &[&'a [u8]]) -> Option<&'a [u8]>
    ensures { option_copied result ≡ only (map (λ word. word.now) words.now) }
{
    match words {
        [word] => Some(word),
        _ => None,
    }
}

// The only two words.
fn only_words<'a>(words: &[&'a [u8]]) -> Option<(&'a [u8], &'a [u8])>
    ensures { option_map (λ pair. (pair.0.now, pair.1.now)) result ≡ only_two (map (λ word. word.now) words.now) }
{
    match words {
        [word, other] => Some((word, other)),
        _ => None,
    }
}
