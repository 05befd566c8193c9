//! What a new data set is to get.
ghost use Rattle.std.specs.Prelude.{◌≡◌, ◌≤◌, length, IfOk};
ghost use Rattle.desk_common.specs.Limits.{most_groups_set};
ghost use Rattle.desk_law.specs.Allocation.{ask_of as primary_of, new_set, tiers_of, wish_with};
ghost use Rattle.desk_law.specs.Classification.{trace_of};
ghost use Rattle.sms_construct.specs.declared.stop.Stop.TheVariants.{Done};
ghost use Rattle.sms_classes.specs.Known.{AreKnown};
ghost use Rattle.sms_volumes.specs.Asking.{IsAsked, ask_of};
ghost use Rattle.desk_state.specs.Inner.Wishing.{classes_with};

use crate::extents::extents_at;
use acs_tree::{Kind, Values};
use deck_meaning::Config;
use desk_common::Shared;
use dsn_mask::{Name, Names};
use sms_classes::{class_name, data_class_of, eattr_of, has_tiers, volume_count_of};
use sms_construct::{Alloc, DataSet, Eattr, Space, Trace, VolumeCount, VolumeDef};
use sms_volumes::Asked;
use std::alloc::{AllocError, Global};
use std::marker::Model;
use track_ledger::Piece;

/// What a new data set is to get: the classes and storage groups to which its classification came, what the routines
/// wrote, its space, on how many volumes it may lie, and whether it may lie on cylinder-managed space.
#[derive(Drop)]
pub struct Wish<'a> {
    config: &'a Config,
    values: &'a Values,
    trace: Shared<Trace>,
    space: Space,
    volumes: VolumeCount,
    eattr: Eattr,
}

impl<'a> Model for Wish<'a> {
    ghost use Rattle.acs_tree.specs.contracts.routine.Form as form;
    ghost use Rattle.std.specs.Coded.{codes};
    ghost use Rattle.desk_law.specs.Allocation.{Wish};
    ghost use Rattle.sms_construct.specs.declared.stop.Stop.TheVariants.{Done};
    ghost use Rattle.sms_classes.specs.Known.{AreKnown};
    ghost use Rattle.desk_state.specs.Inner.Wishing.{classes_with};

    ghost Value = { Wish };

    ghost coded = { Prim.hlevel (codes, form.the_row.coded) };

    ghost view = { λ w. record {
      config = w.config.now;
      classes = classes_with w.values.now Done w.trace;
      space = w.space;
      volumes = w.volumes;
      eattr = w.eattr;
    } };

    ghost invariant = { λ w. AreKnown w.config.now w.values.now };
}

impl<'a> Wish<'a> {
    /// What the request is to get where the classification came to these values and its routines wrote this, and
    /// where the request or its data class names this space (docs/manual/rules.md, "ALLOC").
    pub fn of(
        request: &Alloc,
        config: &'a Config,
        values: &'a Values,
        trace: Shared<Trace>,
        space: Space,
    ) -> Self
        requires { AreKnown config.now values.now }
        ensures { result ≡ wish_with request.now config.now (classes_with values.now Done trace) space }
    {
        let class = data_class_of(config, &values.dataclas);
        Wish {
            config,
            values,
            trace,
            space,
            volumes: volume_count_of(request, class),
            eattr: eattr_of(request, class),
        }
    }

    /// The listed storage groups.
    pub fn groups(&self) -> &[Name]
        ensures { result.now ≡ self.now.classes.values.groups }
    {
        self.values.groups.as_slice()
    }

    /// What is asked of the volumes: the primary quantity.
    pub fn asked(&self) -> Asked<'_>
        ensures value { ask_of result ≡ primary_of self.now }
        ensures asked { IsAsked result }
    {
        Asked {
            unit: self.space.unit(),
            tracks: self.space.primary_tracks(),
            volumes: self.volumes.get(),
            eattr: self.eattr,
            tiers: self.tiers(),
        }
    }

    // The listed storage groups where their order counts, and else none.
    fn tiers(&self) -> &[Name]
        ensures value { result.now ≡ tiers_of self.now }
        ensures few { length result.now ≤ most_groups_set }
    {
        if has_tiers(self.config, &self.values.storclas) {
            self.values.groups.as_slice()
        } else {
            &[]
        }
    }

    /// The new data set with these pieces of the volume, or want of memory.
    pub fn new_set(
        &self,
        alloc: Global,
        request: &Alloc,
        volume: &VolumeDef,
        pieces: &[Piece],
    ) -> Result<Shared<DataSet>, AllocError>
        ensures { IfOk result (λ set. set ≡ new_set request.now self.now volume.now pieces.now) }
    {
        let values = self.values;
        let set = DataSet {
            dsn: request.dsn(),
            dataclas: class_name(self.config, Kind::DataClas, &values.dataclas),
            storclas: storage_class(self.config, values),
            mgmtclas: class_name(self.config, Kind::MgmtClas, &values.mgmtclas),
            group: volume.group,
            unit: self.space.unit(),
            secondary: self.space.secondary_tracks(),
            volumes: self.volumes,
            day: request.day,
            retpd: request.retpd,
            used: 0,
            extents: extents_at(alloc, &volume.volser, pieces)?,
            eattr: self.eattr,
        };
        Shared::new(alloc, set)
    }

    /// What the routines wrote.
    pub fn into_trace(self) -> Shared<Trace>
        ensures { result ≡ trace_of self.entry.classes }
    {
        let Wish { trace, .. } = self;
        trace
    }
}

// The storage class, which the configuration has.
fn storage_class(config: &Config, values: &Values) -> Name
    requires { AreKnown config.now values.now }
    ensures { result ≡ values.now.storclas }
{
    class_name(config, Kind::StorClas, &values.storclas).unwrap()
}
