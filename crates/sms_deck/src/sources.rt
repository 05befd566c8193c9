// The routines of a deck, translated from their texts.
ghost use Rattle.std.specs.Prelude.{◌≡◌, IfErr, IfOk, codes, option_map};
ghost use Rattle.toml.specs.Data.{no_members};
ghost use Rattle.toml.specs.View.{table_view};
ghost use Rattle.deck_meaning.specs.Layout.{fault_told};
ghost use Rattle.deck_meaning.specs.Outcomes.{AreOutcomes, IsOutcomeOf, TellsSource, assigned_fault, outcome_from};
ghost use Rattle.deck_meaning.specs.Outcomes.{outcomes_from, source_of, stage_of, text_fault_of, told_as};
ghost use Rattle.deck_meaning.specs.Reading.{TellsSources, assigned_faults};

use crate::assigned::unknown_in_body;
use crate::rows::{find_table, table_or, value_at};
use acs_translate::{RoutineFault, TranslateErr, translate};
use acs_tree::{Checked, Kind};
use deck_meaning::{DeckErr, MAX_ROUTINE};
use sms_construct::{Fault, Path, Stage, TextFault, key_of};
use std::alloc::Global;
use std::marker::Model;
use toml::Table;

/// The checked routines of a deck.
#[derive(Drop)]
pub struct Sources {
    pub dataclas: Option<Checked>,
    pub storclas: Option<Checked>,
    pub mgmtclas: Option<Checked>,
    pub storgrp: Option<Checked>,
}

impl Model for Sources {
    ghost use Rattle.acs_tree.specs.contracts.routine.Form as form;
    ghost use Rattle.sms_construct.specs.Configuration.{Routines};
    ghost use Rattle.std.specs.Coded.{codes};

    ghost Value = { Routines };

    ghost coded = { Prim.hlevel (codes, form.the_row.coded) };

    ghost view = { λ s. record {
      dataclas = s.dataclas;
      storclas = s.storclas;
      mgmtclas = s.mgmtclas;
      storgrp = s.storgrp;
    } };
}

// The text of the routine of a kind.
fn find_source(top: &Table, kind: Kind) -> Option<&str>
    ensures { option_map (λ s. s.now) result ≡ source_of kind (table_view top.entry.now) }
{
    match find_table(top, "routine") {
        Some(routines) => match value_at(routines, key_of(kind)) {
            Some(value) => value.as_str(),
            None => None,
        },
        None => None,
    }
}

fn stage_of(stage: acs_translate::Stage) -> Stage
    ensures { result ≡ stage_of stage }
{
    match stage {
        acs_translate::Stage::Scanner => Stage::Scanner,
        acs_translate::Stage::Parser => Stage::Parser,
        acs_translate::Stage::Checks => Stage::Checks,
    }
}

fn text_fault(fault: RoutineFault) -> TextFault
    ensures { result ≡ text_fault_of fault }
{
    TextFault {
        stage: stage_of(fault.stage),
        number: fault.number,
        at: fault.at,
    }
}

// The translator's refusal as that of a deck.
fn told_as(kind: Kind, err: TranslateErr) -> DeckErr
    ensures { result ≡ told_as kind err }
{
    match err {
        TranslateErr::Fault(fault) => DeckErr::Fault(Fault::Routine(kind, text_fault(fault))),
        TranslateErr::NoMemory => DeckErr::NoMemory,
    }
}

// The routine of a kind, if there is one.
fn read_source(alloc: Global, top: &Table, kind: Kind) -> Result<Option<Checked>, DeckErr>
    ensures ok { IfOk result (λ routine. IsOutcomeOf kind (source_of kind (table_view top.now))
        (outcome_from routine)) }
    ensures err { IfErr result (TellsSource kind (source_of kind (table_view top.now))) }
{
    let Some(text) = find_source(top, kind) else {
        return Ok(None);
    };
    if text.len() > MAX_ROUTINE {
        let path = Path::new(b"routine").below(key_of(kind).as_bytes());
        return Err(DeckErr::Fault(Fault::TooMany(path)));
    }
    match translate(alloc, text.as_bytes(), kind) {
        Ok((routine, _)) => Ok(Some(routine)),
        Err(err) => Err(told_as(kind, err)),
    }
}

/// The routines of a deck, or the first fault of their texts.
pub fn read_sources(alloc: Global, top: &Table) -> Result<Sources, DeckErr>
    ensures ok { IfOk result (λ sources. AreOutcomes (table_view top.now) (outcomes_from sources)) }
    ensures err { IfErr result (TellsSources (table_view top.now)) }
{
    let dataclas = read_source(alloc, top, Kind::DataClas)?;
    let storclas = read_source(alloc, top, Kind::StorClas)?;
    let mgmtclas = read_source(alloc, top, Kind::MgmtClas)?;
    let storgrp = read_source(alloc, top, Kind::StorGrp)?;
    Ok(Sources {
        dataclas,
        storclas,
        mgmtclas,
        storgrp,
    })
}

// Checks what the routine of a kind sets.
fn check_assigned(
    top: &Table,
    none: &Table,
    kind: Kind,
    routine: &Option<Checked>,
) -> Result<(), Fault>
    requires { table_view none.now ≡ no_members }
    ensures { fault_told result ≡ assigned_fault kind (table_view top.now) routine.now }
{
    let Some(routine) = routine else {
        return Ok(());
    };
    let constructs = table_or(top, key_of(kind), none);
    match unknown_in_body(routine.tree().body.as_slice(), constructs) {
        Some(name) => Err(Fault::Unassigned(kind, name)),
        None => Ok(()),
    }
}

/// Checks that the routines set constructs of the deck.
pub fn check_all_assigned(top: &Table, none: &Table, sources: &Sources) -> Result<(), Fault>
    requires { table_view none.now ≡ no_members }
    ensures { fault_told result ≡ assigned_faults (table_view top.now) sources.now }
{
    check_assigned(top, none, Kind::DataClas, &sources.dataclas)?;
    check_assigned(top, none, Kind::StorClas, &sources.storclas)?;
    check_assigned(top, none, Kind::MgmtClas, &sources.mgmtclas)?;
    check_assigned(top, none, Kind::StorGrp, &sources.storgrp)
}
