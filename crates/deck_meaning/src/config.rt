//! The configuration that a deck defines.
ghost use Rattle.std.specs.Prelude.{◌≡◌, MatchOption, None, bytes_eq, find, option_map};
ghost use Rattle.std.specs.Option.{option_copied};
ghost use Rattle.acs_code.specs.Stands.{StandsFor};
ghost use Rattle.sms_construct.specs.Configuration.{IsConfiguration, has_construct, routine_of};

use crate::compiled::Compiled;
use crate::config_parts::ConfigParts;
use crate::lookups::{
    data_class_named, has_data_class, has_group, has_management_class, has_storage_class,
    management_class_named, storage_class_named,
};
use acs_code::Code;
use acs_tree::{Checked, Kind};
use desk_common::Items;
use dsn_mask::{Name, Short};
use sms_construct::{DataClass, DeckText, MgmtClass, StorClass, StorGroup, VolumeDef};
use std::marker::Model;

/// The classes, storage groups, volumes and routines of a deck, and the bytes of the deck, which it shares
/// (docs/manual/deck.md). Contracts see a `Configuration`; the code of each routine stands for the routine.
/// No reading takes memory.
#[derive(Drop)]
pub struct Config {
    deck: DeckText,
    system: Option<Name>,
    sysplex: Option<Name>,
    data_classes: Items<DataClass>,
    storage_classes: Items<StorClass>,
    management_classes: Items<MgmtClass>,
    groups: Items<StorGroup>,
    volumes: Items<VolumeDef>,
    dataclas: Option<Compiled>,
    storclas: Option<Compiled>,
    mgmtclas: Option<Compiled>,
    storgrp: Option<Compiled>,
}

impl Model for Config {
    ghost use Rattle.acs_tree.specs.contracts.routine.Form as form;
    ghost use Rattle.sms_construct.specs.Configuration.{Configuration, IsConfiguration};
    ghost use Rattle.std.specs.Coded.{codes};

    ghost Value = { Configuration };

    ghost coded = { Prim.hlevel (codes, form.the_row.coded) };

    ghost view = { λ s. record {
      deck = s.deck;
      system = s.system;
      sysplex = s.sysplex;
      data_classes = s.data_classes;
      storage_classes = s.storage_classes;
      management_classes = s.management_classes;
      groups = s.groups;
      volumes = s.volumes;
      routines = record { dataclas = s.dataclas; storclas = s.storclas; mgmtclas = s.mgmtclas; storgrp = s.storgrp };
    } };

    ghost invariant = { λ s. IsConfiguration (record {
      deck = s.deck;
      system = s.system;
      sysplex = s.sysplex;
      data_classes = s.data_classes;
      storage_classes = s.storage_classes;
      management_classes = s.management_classes;
      groups = s.groups;
      volumes = s.volumes;
      routines = record { dataclas = s.dataclas; storclas = s.storclas; mgmtclas = s.mgmtclas; storgrp = s.storgrp };
    }) };
}

impl Config {
    /// The configuration of these parts.
    pub fn new(parts: ConfigParts) -> Self
        requires { IsConfiguration parts }
        ensures { result ≡ parts }
    {
        Config {
            deck: parts.deck,
            system: parts.system,
            sysplex: parts.sysplex,
            data_classes: parts.data_classes,
            storage_classes: parts.storage_classes,
            management_classes: parts.management_classes,
            groups: parts.groups,
            volumes: parts.volumes,
            dataclas: parts.dataclas,
            storclas: parts.storclas,
            mgmtclas: parts.mgmtclas,
            storgrp: parts.storgrp,
        }
    }

    /// The bytes of the deck.
    pub fn deck(&self) -> &[u8]
        ensures deck { result.now ≡ self.now.deck }
        ensures form { IsConfiguration self.now }
    {
        self.deck.get().as_slice()
    }

    /// The name of the system, if the deck has one.
    pub fn system(&self) -> Option<Name>
        ensures { result ≡ self.now.system }
    {
        self.system
    }

    /// The name of the sysplex, if the deck has one.
    pub fn sysplex(&self) -> Option<Name>
        ensures { result ≡ self.now.sysplex }
    {
        self.sysplex
    }

    /// The data classes in byte order of their names.
    pub fn data_classes(&self) -> &[DataClass]
        ensures { result.now ≡ self.now.data_classes }
    {
        self.data_classes.as_slice()
    }

    /// The storage classes in byte order of their names.
    pub fn storage_classes(&self) -> &[StorClass]
        ensures { result.now ≡ self.now.storage_classes }
    {
        self.storage_classes.as_slice()
    }

    /// The management classes in byte order of their names.
    pub fn management_classes(&self) -> &[MgmtClass]
        ensures { result.now ≡ self.now.management_classes }
    {
        self.management_classes.as_slice()
    }

    /// The storage groups in byte order of their names.
    pub fn groups(&self) -> &[StorGroup]
        ensures { result.now ≡ self.now.groups }
    {
        self.groups.as_slice()
    }

    /// The volumes in byte order of their serials.
    pub fn volumes(&self) -> &[VolumeDef]
        ensures { result.now ≡ self.now.volumes }
    {
        self.volumes.as_slice()
    }

    /// Whether there is a construct of this kind and name.
    pub fn has(&self, kind: Kind, name: &Short) -> bool
        ensures { result ≡ has_construct kind name.now self.now }
    {
        let name = name.bytes();
        match kind {
            Kind::DataClas => has_data_class(self.data_classes.as_slice(), name),
            Kind::StorClas => has_storage_class(self.storage_classes.as_slice(), name),
            Kind::MgmtClas => has_management_class(self.management_classes.as_slice(), name),
            Kind::StorGrp => has_group(self.groups.as_slice(), name),
        }
    }

    /// The data class of this name.
    pub fn data_class(&self, name: &Name) -> Option<&DataClass>
        ensures { option_copied result ≡ find (λ class. bytes_eq name.now class.name) self.now.data_classes }
    {
        data_class_named(self.data_classes.as_slice(), name.bytes())
    }

    /// The data class that a routine's value names; none where it is null.
    pub fn data_class_for(&self, name: &Short) -> Option<&DataClass>
        ensures { option_copied result ≡ find (λ class. bytes_eq name.now class.name) self.now.data_classes }
    {
        data_class_named(self.data_classes.as_slice(), name.bytes())
    }

    /// The storage class that a routine's value names; none where it is null.
    pub fn stor_class_for(&self, name: &Short) -> Option<&StorClass>
        ensures { option_copied result ≡ find (λ class. bytes_eq name.now class.name) self.now.storage_classes }
    {
        storage_class_named(self.storage_classes.as_slice(), name.bytes())
    }

    /// The management class of this name.
    pub fn mgmt_class(&self, name: &Name) -> Option<&MgmtClass>
        ensures { option_copied result ≡ find (λ class. bytes_eq name.now class.name) self.now.management_classes }
    {
        management_class_named(self.management_classes.as_slice(), name.bytes())
    }

    /// The management class that a routine's value names; none where it is null.
    pub fn mgmt_class_for(&self, name: &Short) -> Option<&MgmtClass>
        ensures { option_copied result ≡ find (λ class. bytes_eq name.now class.name) self.now.management_classes }
    {
        management_class_named(self.management_classes.as_slice(), name.bytes())
    }

    // The routine of a kind with its code.
    fn compiled(&self, kind: Kind) -> &Option<Compiled>
        ensures { result.now ≡ routine_of kind self.now.routines }
    {
        match kind {
            Kind::DataClas => &self.dataclas,
            Kind::StorClas => &self.storclas,
            Kind::MgmtClas => &self.mgmtclas,
            Kind::StorGrp => &self.storgrp,
        }
    }

    /// The routine of a kind, if there is one.
    pub fn source(&self, kind: Kind) -> Option<&Checked>
        ensures { option_map (λ r. r.now) result ≡ routine_of kind self.now.routines }
    {
        match self.compiled(kind) {
            Some(compiled) => Some(compiled.source()),
            None => None,
        }
    }

    /// The code of the routine of a kind, if there is one: what `compile` gives for it.
    pub fn code(&self, kind: Kind) -> Option<&Code>
        ensures { MatchOption (routine_of kind self.now.routines) (option_map (λ c. c.now) result ≡ None)
            (λ routine. MatchOption result ⊥ (λ code. StandsFor code.now routine)) }
    {
        match self.compiled(kind) {
            Some(compiled) => Some(compiled.code()),
            None => None,
        }
    }
}
