//! What an ALLOC asks for.
ghost use Rattle.std.specs.Prelude.{◌≡◌, ◌∷◌, ◌++◌, [], None, codes, map, option_map, unwrap_or};
ghost use Rattle.std.specs.Prelude.{if◌then◌else◌, IfOk, IfSome};
ghost use Rattle.acs_tree.specs.Inputs.{no_lists, no_texts};
ghost use Rattle.sms_construct.specs.Requests.{plain_alloc};
ghost use Rattle.sms_construct.specs.SpaceText.{space_text};
ghost use Rattle.sms_script.specs.Operands.{accounting_in, amounts_of, are_operands, attributes_in, defaults_in};
ghost use Rattle.sms_script.specs.Operands.{environment_in, input_in, lists_in, origin_in, request_in, texts_in};
ghost use Rattle.sms_script.specs.Ops.{alloc_in};

use crate::operand::{
    account_at, are_operands, count_at, date_at, eattr_at, has_list, has_text, name_at,
    name_value_at, number_at, some_number_at, space_at, volumes_at, word_at,
};
use acs_tree::{
    Accounting, Amounts, Attributes, Defaults, Environment, Given, GivenLists, GivenTexts, Origin,
};
use desk_common::{Boxed, LAST_DAY, MAX_DAYS, Shared};
use dsn_mask::{Dsn, Short};
use sms_construct::{Alloc, Space, behind_front, read_space};
use std::alloc::{AllocError, Global};

/// What the data set's name and the operands behind it ask for, if all are in form; or want of memory.
#[inline(always)]
pub fn read_allocation(alloc: Global, words: &[&[u8]]) -> Result<Option<Shared<Alloc>>, AllocError>
    ensures { IfOk result (λ read. read ≡ alloc_in (map (λ word. word.now) words.now)) }
{
    let [word, operands @ ..] = words else {
        return Ok(None);
    };
    let Ok(dsn) = Dsn::parse(word) else {
        return Ok(None);
    };
    read_operands(alloc, dsn, operands)
}

// What the operands ask for, if all are in form. Where there is a space alone, no other key is looked for.
#[inline(always)]
fn read_operands(
    alloc: Global,
    dsn: Dsn,
    operands: &[&[u8]],
) -> Result<Option<Shared<Alloc>>, AllocError>
    ensures { IfOk result (λ read. read ≡ (if are_operands (map (λ word. word.now) operands.now)
        then request_in dsn (map (λ word. word.now) operands.now) else None)) }
{
    if let Some(value) = only_space(operands) {
        return read_plain(alloc, dsn, value);
    }
    read_listed(alloc, dsn, operands)
}

// The same of any operands. It stands apart, so that what they give takes no room where there is a space alone.
#[inline(never)]
fn read_listed(
    alloc: Global,
    dsn: Dsn,
    operands: &[&[u8]],
) -> Result<Option<Shared<Alloc>>, AllocError>
    ensures { IfOk result (λ read. read ≡ (if are_operands (map (λ word. word.now) operands.now)
        then request_in dsn (map (λ word. word.now) operands.now) else None)) }
{
    if !are_operands(operands) {
        return Ok(None);
    }
    read_request(alloc, dsn, operands)
}

// What is behind the key of the space, if that is the only operand.
fn only_space<'a>(operands: &[&'a [u8]]) -> Option<&'a [u8]>
    ensures { IfSome result (λ value. map (λ word. word.now) operands.now ≡ (codes "SPACE=" ++ value.now) ∷ []) }
{
    match operands {
        [word] => behind_front(b"SPACE=", word),
        _ => None,
    }
}

// What the text of a space asks for, if it is in form, and nothing else is asked for.
#[inline(always)]
fn read_plain(alloc: Global, dsn: Dsn, space: &[u8]) -> Result<Option<Shared<Alloc>>, AllocError>
    ensures { IfOk result (λ read. read ≡ option_map (plain_alloc dsn) (space_text space.now)) }
{
    match read_space(space) {
        Some(space) => Ok(Some(Alloc::plain(alloc, dsn, space)?)),
        None => Ok(None),
    }
}

fn read_request(
    alloc: Global,
    dsn: Dsn,
    operands: &[&[u8]],
) -> Result<Option<Shared<Alloc>>, AllocError>
    ensures { IfOk result (λ read. read ≡ request_in dsn (map (λ word. word.now) operands.now)) }
{
    let Some(space) = space_at(b"SPACE=", operands) else {
        return Ok(None);
    };
    let Some(dataclas) = name_at(b"DATACLAS=", operands) else {
        return Ok(None);
    };
    let Some(storclas) = name_at(b"STORCLAS=", operands) else {
        return Ok(None);
    };
    let Some(mgmtclas) = name_at(b"MGMTCLAS=", operands) else {
        return Ok(None);
    };
    let Some(volumes) = count_at(b"VOLCNT=", operands) else {
        return Ok(None);
    };
    let Some(day) = number_at(b"DAY=", LAST_DAY, operands) else {
        return Ok(None);
    };
    let Some(retpd) = some_number_at(b"RETPD=", MAX_DAYS, operands) else {
        return Ok(None);
    };
    let Some(eattr) = eattr_at(b"EATTR=", operands) else {
        return Ok(None);
    };
    let Some(input) = read_input(alloc, dsn, retpd, &space, operands)? else {
        return Ok(None);
    };
    let asked = Alloc {
        input,
        space,
        dataclas,
        storclas,
        mgmtclas,
        volumes,
        day,
        retpd,
        eattr,
    };
    Ok(Some(Shared::new(alloc, asked)?))
}

fn read_input(
    alloc: Global,
    dsn: Dsn,
    retpd: Option<u32>,
    space: &Option<Space>,
    operands: &[&[u8]],
) -> Result<Option<Given>, AllocError>
    ensures { IfOk result (λ read. read ≡ input_in dsn retpd space.now (map (λ word. word.now) operands.now)) }
{
    let Some(texts) = read_texts(alloc, operands)? else {
        return Ok(None);
    };
    let Some(lists) = read_lists(alloc, operands)? else {
        return Ok(None);
    };
    let Some(blksize) = number_at(b"BLKSIZE=", 2_147_483_647, operands) else {
        return Ok(None);
    };
    let amounts = amounts_of(retpd, blksize, space);
    Ok(Some(Given::new(dsn, amounts, texts, lists)))
}

// The texts that the operands give, in memory of their own if one is given.
#[tactic(auto, using(crate::proofs::GivenLemmas::no_text_given))]
fn read_texts(
    alloc: Global,
    operands: &[&[u8]],
) -> Result<Option<Option<Boxed<GivenTexts>>>, AllocError>
    ensures { IfOk result (λ read. option_map (λ texts. unwrap_or texts no_texts) read ≡
        texts_in (map (λ word. word.now) operands.now)) }
{
    if has_text(operands) {
        boxed_texts(alloc, operands)
    } else {
        Ok(Some(None))
    }
}

fn boxed_texts(
    alloc: Global,
    operands: &[&[u8]],
) -> Result<Option<Option<Boxed<GivenTexts>>>, AllocError>
    ensures { IfOk result (λ read. option_map (λ texts. unwrap_or texts no_texts) read ≡
        texts_in (map (λ word. word.now) operands.now)) }
{
    match texts_at(operands) {
        Some(texts) => Ok(Some(Some(Boxed::new(alloc, texts)?))),
        None => Ok(None),
    }
}

fn texts_at(operands: &[&[u8]]) -> Option<GivenTexts>
    ensures { result ≡ texts_in (map (λ word. word.now) operands.now) }
{
    let origin = read_origin(operands)?;
    let attributes = read_attributes(operands)?;
    let environment = read_environment(operands)?;
    let defaults = read_defaults(operands)?;
    Some(GivenTexts {
        origin,
        attributes,
        environment,
        defaults,
    })
}

// The lists that the operands give, in memory of their own if one is given.
#[tactic(auto, using(crate::proofs::GivenLemmas::no_list_given))]
fn read_lists(
    alloc: Global,
    operands: &[&[u8]],
) -> Result<Option<Option<Boxed<GivenLists>>>, AllocError>
    ensures { IfOk result (λ read. option_map (λ lists. unwrap_or lists no_lists) read ≡
        lists_in (map (λ word. word.now) operands.now)) }
{
    if has_list(operands) {
        boxed_lists(alloc, operands)
    } else {
        Ok(Some(None))
    }
}

fn boxed_lists(
    alloc: Global,
    operands: &[&[u8]],
) -> Result<Option<Option<Boxed<GivenLists>>>, AllocError>
    ensures { IfOk result (λ read. option_map (λ lists. unwrap_or lists no_lists) read ≡
        lists_in (map (λ word. word.now) operands.now)) }
{
    match lists_at(operands) {
        Some(lists) => Ok(Some(Some(Boxed::new(alloc, lists)?))),
        None => Ok(None),
    }
}

fn lists_at(operands: &[&[u8]]) -> Option<GivenLists>
    ensures { result ≡ lists_in (map (λ word. word.now) operands.now) }
{
    let accounting = read_accounting(operands)?;
    let volumes = volumes_at(b"VOL=", operands)?;
    Some(GivenLists {
        accounting,
        volumes,
    })
}

fn read_origin(operands: &[&[u8]]) -> Option<Origin>
    ensures { result ≡ origin_in (map (λ word. word.now) operands.now) }
{
    let user = word_at(b"USER=", Short::null(), operands)?;
    let group = word_at(b"GROUP=", Short::null(), operands)?;
    let pgm = word_at(b"PGM=", Short::null(), operands)?;
    let dd = word_at(b"DD=", Short::null(), operands)?;
    let applic = word_at(b"APPLIC=", Short::null(), operands)?;
    Some(Origin {
        job: Short::null(),
        user,
        group,
        pgm,
        dd,
        applic,
    })
}

fn read_accounting(operands: &[&[u8]]) -> Option<Accounting>
    ensures { result ≡ accounting_in (map (λ word. word.now) operands.now) }
{
    let acct_job = account_at(b"ACCT=", operands)?;
    let acct_step = account_at(b"STEPACCT=", operands)?;
    Some(Accounting {
        acct_job,
        acct_step,
    })
}

fn read_attributes(operands: &[&[u8]]) -> Option<Attributes>
    ensures { result ≡ attributes_in (map (λ word. word.now) operands.now) }
{
    let unit = word_at(b"UNIT=", Short::null(), operands)?;
    let dsorg = word_at(b"DSORG=", Short::null(), operands)?;
    let recorg = word_at(b"RECORG=", Short::null(), operands)?;
    let dsntype = word_at(b"DSNTYPE=", Short::null(), operands)?;
    let dstype = word_at(b"DSTYPE=", Short::new(b"PERM").unwrap(), operands)?;
    let dsowner = word_at(b"OWNER=", Short::null(), operands)?;
    let expdt = date_at(b"EXPDT=", operands)?;
    Some(Attributes {
        unit,
        dsorg,
        recorg,
        dsntype,
        dstype,
        dsowner,
        expdt,
    })
}

fn read_environment(operands: &[&[u8]]) -> Option<Environment>
    ensures { result ≡ environment_in (map (λ word. word.now) operands.now) }
{
    let acsenvir = word_at(b"ACSENVIR=", Short::new(b"ALLOC").unwrap(), operands)?;
    let xmode = word_at(b"XMODE=", Short::new(b"BATCH").unwrap(), operands)?;
    Some(Environment {
        acsenvir,
        xmode,
        sysname: Short::null(),
        sysplex: Short::null(),
    })
}

fn read_defaults(operands: &[&[u8]]) -> Option<Defaults>
    ensures { result ≡ defaults_in (map (λ word. word.now) operands.now) }
{
    let dataclas = name_value_at(b"DEFDC=", operands)?;
    let storclas = name_value_at(b"DEFSC=", operands)?;
    let mgmtclas = name_value_at(b"DEFMC=", operands)?;
    Some(Defaults {
        dataclas,
        storclas,
        mgmtclas,
    })
}

fn amounts_of(retpd: Option<u32>, blksize: u32, space: &Option<Space>) -> Amounts
    ensures { result ≡ amounts_of retpd blksize space.now }
{
    let (size, maxsize) = match space {
        Some(space) => (space.kilobytes(), space.most_kilobytes()),
        None => (0, 0),
    };
    Amounts {
        retpd: retpd.unwrap_or(0),
        blksize,
        size,
        maxsize,
    }
}
