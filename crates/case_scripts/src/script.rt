//! The cases of a table as a script.
ghost use Rattle.std.specs.Prelude.{◌≡◌, ◌++◌, filter, map, IfOk, OnOk};
ghost use Rattle.case_scripts.specs.CaseScripts.{case_item, deck_item, items_of_cases, is_named, script_of_cases};

use acs_test::Case;
use desk_common::Items;
use dsn_mask::Name;
use sms_construct::{DeckText, Op, Request, RequestNumber};
use sms_script::{Item, Phase, Script};
use std::alloc::{AllocError, Global};

// The administrator.
const ADMINISTRATOR: &[u8] = b"SMSADMIN";

/// A script that activates the deck and allocates each of the cases, or of those of this name where one is asked for.
/// The line of a case and its number are those of its record in the table, where the header is record 1
/// (docs/manual/tool.md, "Decks with tables of cases").
pub fn case_script(
    alloc: Global,
    deck: &DeckText,
    cases: &[Case],
    name: &Option<Name>,
) -> Result<Script, AllocError>
    ensures { IfOk result (λ script. script ≡ script_of_cases deck.now name.now cases.now) }
{
    let phase = phase_of(alloc, deck, cases, name)?;
    let mut script = Items::new(alloc);
    script.push(phase)?;
    Ok(script)
}

fn phase_of(
    alloc: Global,
    deck: &DeckText,
    cases: &[Case],
    name: &Option<Name>,
) -> Result<Phase, AllocError>
    ensures { IfOk result (λ phase. phase ≡ items_of_cases deck.now name.now cases.now) }
{
    let mut items = Vec::new(alloc);
    items.push(deck_item(deck)?)?;
    push_cases(&mut items, cases, name)?;
    Ok(Items::from_vec(items))
}

// The activation of the deck, which no line asks for.
fn deck_item(deck: &DeckText) -> Result<Item, AllocError>
    ensures { IfOk result (λ item. item ≡ deck_item deck.now) }
{
    let (Some(job), Some(number)) = (Name::new(ADMINISTRATOR), RequestNumber::new(1)) else {
        return Err(AllocError);
    };
    Ok(Item {
        line: 0,
        request: Request {
            job,
            number,
            op: Op::Activate(deck.share()?),
        },
    })
}

fn push_cases(items: &mut Vec<Item>, cases: &[Case], name: &Option<Name>) -> Result<(), AllocError>
    ensures { OnOk result (items.new.items ≡ items.old.items ++
        map case_item (filter (is_named name.now) cases.entry.now)) }
{
    let mut rest = cases;
    while let [case, others @ ..] = rest {
        if is_named(name, case) {
            items.push(case_item(case)?)?;
        }
        rest = others;
    }
    Ok(())
}

fn is_named(name: &Option<Name>, case: &Case) -> bool
    ensures { result ≡ is_named name.now case.now }
{
    match name {
        Some(name) => case.name == *name,
        None => true,
    }
}

// The ALLOC of a case.
fn case_item(case: &Case) -> Result<Item, AllocError>
    ensures { IfOk result (λ item. item ≡ case_item case.now) }
{
    Ok(Item {
        line: case.number.get(),
        request: Request {
            job: case.job,
            number: case.number,
            op: Op::Alloc(case.alloc.share()?),
        },
    })
}
