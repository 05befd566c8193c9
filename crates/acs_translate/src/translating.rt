// From a text to a checked routine.
ghost use Rattle.std.specs.Prelude.{◌≡◌, ◌<◌, ◌^◌, length, IfOk, IfErr};
ghost use Rattle.acs_translate.specs.Translation.{IsTranslated, MayRefuse, IsExact, lex_err, parse_err, check_fault};

use crate::fault::{RoutineFault, Stage, TranslateErr};
use acs_check::check;
use acs_lex::LexErr;
use acs_parse::{ParseErr, parse_symbols};
use acs_symbol::read_symbols;
use acs_tree::{CheckErr, Checked, Kind};
use std::alloc::Global;

/// The checked routine that the text is for a routine of this kind, with the number of its tokens,
/// or the first fault: of the scanner, else of the parser, else of the checks.
#[tactic(auto, using(crate::proofs::TranslateLemmas::translate_steps))]
pub fn translate(alloc: Global, text: &[u8], kind: Kind) -> Result<(Checked, u32), TranslateErr>
    requires { length text.now < 2 ^ 32 }
    ensures ok { IfOk result (λ found. IsTranslated text.now kind found.0.tree found.1 × (found.0.kind ≡ kind)) }
    ensures err { IfErr result (MayRefuse text.now kind) }
    ensures exactly { IsExact text.now kind result }
{
    let symbols = match read_symbols(alloc, text) {
        Ok(symbols) => symbols,
        Err(fault) => return Err(told_by_scanner(fault)),
    };
    let count = symbols.len() as u32;
    let tree = match parse_symbols(alloc, symbols.as_slice()) {
        Ok(tree) => tree,
        Err(fault) => return Err(told_by_parser(count, fault)),
    };
    match check(tree, kind) {
        Ok(routine) => Ok((routine, count)),
        Err(fault) => Err(told_by_checks(fault)),
    }
}

fn told_by_scanner(fault: LexErr) -> TranslateErr
    ensures { result ≡ lex_err fault }
{
    let (number, at) = match fault {
        LexErr::OpenComment(at) => (1, at),
        LexErr::OpenLiteral(at) => (2, at),
        LexErr::BadByte(at) => (3, at),
        LexErr::LongWord(at) => (4, at),
        LexErr::NoMemory => return TranslateErr::NoMemory,
    };
    TranslateErr::Fault(RoutineFault {
        stage: Stage::Scanner,
        number,
        at,
    })
}

fn told_by_parser(count: u32, fault: ParseErr) -> TranslateErr
    ensures { result ≡ parse_err count fault }
{
    let (number, at) = match fault {
        ParseErr::Unexpected(at) => (1, at),
        ParseErr::Ended => (2, count),
        ParseErr::Deep(at) => (3, at),
        ParseErr::NoMemory => return TranslateErr::NoMemory,
    };
    TranslateErr::Fault(RoutineFault {
        stage: Stage::Parser,
        number,
        at,
    })
}

fn told_by_checks(fault: CheckErr) -> TranslateErr
    ensures { result ≡ TranslateErr.Fault (check_fault fault) }
{
    let CheckErr { number, at } = fault;
    TranslateErr::Fault(RoutineFault {
        stage: Stage::Checks,
        number,
        at,
    })
}
