//! The linting of a deck.
ghost use Rattle.std.specs.Prelude.{◌≡◌, ◌++◌, IfOk, OnOk};
ghost use Rattle.deck_meaning.specs.Reading.{Configures};
ghost use Rattle.sms_lint.specs.DeckFound.{findings_in};
ghost use Rattle.sms_lint.specs.Linting.{AreFindingsIn, AreFindingsOn, IsLinted};
ghost use Rattle.toml.specs.View.{table_view};

use crate::constructs::push_constructs;
use crate::deck_finding::DeckFindings;
use crate::finding_text::text_of;
use crate::linted::{Lint, Linted};
use crate::routines::push_routines;
use deck_meaning::{Config, DeckErr};
use desk_common::Items;
use sms_construct::DeckText;
use sms_deck::read_deck;
use sms_explain::sources_of;
use std::alloc::{AllocError, Global};
use toml::Table;

/// What in a deck is certain and hardly meant so, or the deck's first fault. Each finding is true, and not all that may be
/// found is (docs/manual/tool.md, "Linting a deck").
pub fn lint(alloc: Global, deck: &DeckText) -> Result<Linted, AllocError>
    ensures { IfOk result (IsLinted deck.now) }
{
    match read_deck(alloc, deck) {
        Ok(config) => lint_by(alloc, deck, &config),
        Err(DeckErr::Fault(fault)) => Ok(Linted::Refused(fault)),
        Err(DeckErr::NoMemory) => Err(AllocError),
    }
}

// The same, by what the deck configures.
fn lint_by(alloc: Global, deck: &DeckText, config: &Config) -> Result<Linted, AllocError>
    ensures { IfOk result (λ made. Configures deck.now config.now → IsLinted deck.now made) }
{
    let sources = sources_of(alloc, deck)?;
    let findings = findings_on(alloc, deck.get().as_slice(), config)?;
    let text = text_of(alloc, &sources, findings.as_slice())?;
    Ok(Linted::Shown(Lint {
        findings,
        sources,
        text,
    }))
}

// What is found in a configuration whose deck this is.
fn findings_on(alloc: Global, deck: &[u8], config: &Config) -> Result<DeckFindings, AllocError>
    ensures { IfOk result (AreFindingsOn deck.now config.now) }
{
    let Ok(top) = toml::table_from_slice(alloc, deck) else {
        return Err(AllocError);
    };
    let findings = all_findings(alloc, config, &top)?;
    Ok(findings)
}

// What is found in a configuration whose deck has this table.
fn all_findings(alloc: Global, config: &Config, top: &Table) -> Result<DeckFindings, AllocError>
    ensures { IfOk result (AreFindingsIn config.now (table_view top.now)) }
{
    all_found(alloc, config, top)
}

fn all_found(alloc: Global, config: &Config, top: &Table) -> Result<DeckFindings, AllocError>
    ensures { IfOk result (λ findings. findings ≡ findings_in config.now (table_view top.now)) }
{
    let mut found = Vec::new(alloc);
    push_routines(alloc, &mut found, config)?;
    push_constructs(alloc, &mut found, config, top)?;
    Ok(Items::from_vec(found))
}
