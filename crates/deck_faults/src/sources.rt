// The routines of a deck, translated from their texts, and what they set.
ghost use Rattle.std.specs.Prelude.{◌≡◌, IfOk, OnOk, codes, option_map};
ghost use Rattle.toml.specs.Data.{no_members};
ghost use Rattle.toml.specs.View.{table_view};
ghost use Rattle.sms_construct.specs.Keys.{key_of};
ghost use Rattle.sms_construct.specs.Path.{below};
ghost use Rattle.deck_meaning.specs.Layout.{fault_told};
ghost use Rattle.deck_meaning.specs.Outcomes.{assigned_fault, source_of, stage_of, text_fault_of};
ghost use Rattle.deck_faults.specs.Faults.{known_faults};
ghost use Rattle.deck_faults.specs.Names.{known_fault};
ghost use Rattle.deck_faults.specs.Survey.{alone};
ghost use Rattle.deck_faults.specs.Inner.Telling.{AreReadAs, IsReadAs, put_all};

use crate::assigned::unknown_in_body;
use crate::names::names_known;
use crate::rows::{find_table, table_or, value_at};
use crate::telling::{tell, tell_first};
use acs_translate::{RoutineFault, TranslateErr, translate};
use acs_tree::{Checked, Kind};
use deck_meaning::MAX_ROUTINE;
use sms_construct::{Fault, Path, Stage, TextFault, key_of};
use std::alloc::{AllocError, Global};
use std::marker::Model;
use toml::Table;

/// The routines of a deck whose texts have no fault.
#[derive(Drop)]
pub struct Sources {
    pub dataclas: Option<Checked>,
    pub storclas: Option<Checked>,
    pub mgmtclas: Option<Checked>,
    pub storgrp: Option<Checked>,
}

impl Model for Sources {
    ghost use Rattle.acs_tree.specs.contracts.routine.Form as form;
    ghost use Rattle.sms_construct.specs.Configuration.{Routines};
    ghost use Rattle.std.specs.Coded.{codes};

    ghost Value = { Routines };

    ghost coded = { Prim.hlevel (codes, form.the_row.coded) };

    ghost view = { λ s. record {
      dataclas = s.dataclas;
      storclas = s.storclas;
      mgmtclas = s.mgmtclas;
      storgrp = s.storgrp;
    } };
}

// The text of the routine of a kind.
fn find_source(top: &Table, kind: Kind) -> Option<&str>
    ensures { option_map (λ s. s.now) result ≡ source_of kind (table_view top.entry.now) }
{
    match find_table(top, "routine") {
        Some(routines) => match value_at(routines, key_of(kind)) {
            Some(value) => value.as_str(),
            None => None,
        },
        None => None,
    }
}

fn stage_of(stage: acs_translate::Stage) -> Stage
    ensures { result ≡ stage_of stage }
{
    match stage {
        acs_translate::Stage::Scanner => Stage::Scanner,
        acs_translate::Stage::Parser => Stage::Parser,
        acs_translate::Stage::Checks => Stage::Checks,
    }
}

fn text_fault(fault: RoutineFault) -> TextFault
    ensures { result ≡ text_fault_of fault }
{
    TextFault {
        stage: stage_of(fault.stage),
        number: fault.number,
        at: fault.at,
    }
}

// The path of the routine of a kind.
fn path_of(kind: Kind) -> Path
    ensures { result ≡ below (codes "routine") (key_of kind) }
{
    Path::new(b"routine").below(key_of(kind).as_bytes())
}

// The routine of a kind, if there is one without a fault; its fault is told.
fn read_source(
    alloc: Global,
    told: &mut Vec<Fault>,
    top: &Table,
    kind: Kind,
) -> Result<Option<Checked>, AllocError>
    ensures { IfOk result
        (IsReadAs kind (source_of kind (table_view top.now)) told.old.items told.new.items) }
{
    let Some(text) = find_source(top, kind) else {
        return Ok(None);
    };
    if text.len() > MAX_ROUTINE {
        tell(told, Fault::TooMany(path_of(kind)))?;
        return Ok(None);
    }
    match translate(alloc, text.as_bytes(), kind) {
        Ok((routine, _)) => Ok(Some(routine)),
        Err(TranslateErr::Fault(fault)) => {
            tell(told, Fault::Routine(kind, text_fault(fault)))?;
            Ok(None)
        }
        Err(TranslateErr::NoMemory) => Err(AllocError),
    }
}

/// The routines of a deck whose texts have no fault; the faults of the others are told.
pub fn read_sources(
    alloc: Global,
    told: &mut Vec<Fault>,
    top: &Table,
) -> Result<Sources, AllocError>
    ensures { IfOk result (AreReadAs (table_view top.now) told.old.items told.new.items) }
{
    let dataclas = read_source(alloc, told, top, Kind::DataClas)?;
    let storclas = read_source(alloc, told, top, Kind::StorClas)?;
    let mgmtclas = read_source(alloc, told, top, Kind::MgmtClas)?;
    let storgrp = read_source(alloc, told, top, Kind::StorGrp)?;
    Ok(Sources {
        dataclas,
        storclas,
        mgmtclas,
        storgrp,
    })
}

// Checks what the routine of a kind sets.
fn check_assigned(
    top: &Table,
    none: &Table,
    kind: Kind,
    routine: &Option<Checked>,
) -> Result<(), Fault>
    requires { table_view none.now ≡ no_members }
    ensures { fault_told result ≡ assigned_fault kind (table_view top.now) routine.now }
{
    let Some(routine) = routine else {
        return Ok(());
    };
    let constructs = table_or(top, key_of(kind), none);
    match unknown_in_body(routine.tree().body.as_slice(), constructs) {
        Some(name) => Err(Fault::Unassigned(kind, name)),
        None => Ok(()),
    }
}

// Checks what the routine of a kind sets, where the names of that kind are known.
fn check_known(
    top: &Table,
    none: &Table,
    kind: Kind,
    routine: &Option<Checked>,
) -> Result<(), Fault>
    requires { table_view none.now ≡ no_members }
    ensures { fault_told result ≡ known_fault kind (table_view top.now) routine.now }
{
    if names_known(kind, top) {
        check_assigned(top, none, kind, routine)
    } else {
        Ok(())
    }
}

/// Tells what the routines set that is no construct of the deck.
#[tactic(auto, using(crate::proofs::TellingLemmas::put_append))]
pub fn tell_assigned(
    told: &mut Vec<Fault>,
    top: &Table,
    none: &Table,
    sources: &Sources,
) -> Result<(), AllocError>
    requires { table_view none.now ≡ no_members }
    ensures { OnOk result (told.new.items ≡ put_all told.old.items (known_faults (table_view top.now) sources.now)) }
{
    tell_first(
        told,
        check_known(top, none, Kind::DataClas, &sources.dataclas),
    )?;
    tell_first(
        told,
        check_known(top, none, Kind::StorClas, &sources.storclas),
    )?;
    tell_first(
        told,
        check_known(top, none, Kind::MgmtClas, &sources.mgmtclas),
    )?;
    tell_first(
        told,
        check_known(top, none, Kind::StorGrp, &sources.storgrp),
    )
}
