//! The parts of a configuration.

use crate::compiled::Compiled;
use desk_common::Items;
use dsn_mask::Name;
use sms_construct::{DataClass, DeckText, MgmtClass, StorClass, StorGroup, VolumeDef};
use std::marker::Model;

/// What a configuration is made of: its constructs and volumes in byte order of their names, its routines, and the
/// bytes of its deck. Contracts see a `Configuration`, of which nothing is known yet.
#[derive(Drop)]
pub struct ConfigParts {
    pub deck: DeckText,
    pub system: Option<Name>,
    pub sysplex: Option<Name>,
    pub data_classes: Items<DataClass>,
    pub storage_classes: Items<StorClass>,
    pub management_classes: Items<MgmtClass>,
    pub groups: Items<StorGroup>,
    pub volumes: Items<VolumeDef>,
    pub dataclas: Option<Compiled>,
    pub storclas: Option<Compiled>,
    pub mgmtclas: Option<Compiled>,
    pub storgrp: Option<Compiled>,
}

impl Model for ConfigParts {
    ghost use Rattle.acs_tree.specs.contracts.routine.Form as form;
    ghost use Rattle.sms_construct.specs.Configuration.{Configuration};
    ghost use Rattle.std.specs.Coded.{codes};

    ghost Value = { Configuration };

    ghost coded = { Prim.hlevel (codes, form.the_row.coded) };

    ghost view = { λ s. record {
      deck = s.deck;
      system = s.system;
      sysplex = s.sysplex;
      data_classes = s.data_classes;
      storage_classes = s.storage_classes;
      management_classes = s.management_classes;
      groups = s.groups;
      volumes = s.volumes;
      routines = record { dataclas = s.dataclas; storclas = s.storclas; mgmtclas = s.mgmtclas; storgrp = s.storgrp };
    } };
}
