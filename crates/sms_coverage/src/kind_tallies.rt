//! How often something happened in the routines of a deck.
ghost use Rattle.std.specs.Prelude.{◌≡◌, ◌++◌, [], List, OnOk};
ghost use Rattle.acs_coverage.specs.Counts.{AreCounts};
ghost use Rattle.acs_trace.specs.declared.event.Event.{Event};
ghost use Rattle.acs_tree.specs.declared.kind.Kind.{Kind as KindOf};
ghost use Rattle.sms_coverage.specs.Events.{AreCounted, events_of_run, tallies_in};
ghost use Rattle.sms_story.specs.declared.run.Run.{Run as RunOf};

use acs_coverage::Tallies;
use acs_tree::Kind;
use sms_story::Run;
use std::alloc::{AllocError, Global};

/// How often something happened at each token of the four routines.
#[derive(Drop)]
pub struct KindTallies {
    pub dataclas: Tallies,
    pub storclas: Tallies,
    pub mgmtclas: Tallies,
    pub storgrp: Tallies,
}

impl KindTallies {
    /// Nothing happened.
    pub fn new(alloc: Global) -> Self
        ensures { (kind : KindOf) → tallies_in result kind ≡ [] }
    {
        KindTallies {
            dataclas: Tallies::new(alloc),
            storclas: Tallies::new(alloc),
            mgmtclas: Tallies::new(alloc),
            storgrp: Tallies::new(alloc),
        }
    }

    /// Those of the routine of a kind.
    pub fn of_kind(&self, kind: Kind) -> &Tallies
        ensures { result.now ≡ tallies_in self.now kind }
    {
        match kind {
            Kind::DataClas => &self.dataclas,
            Kind::StorClas => &self.storclas,
            Kind::MgmtClas => &self.mgmtclas,
            Kind::StorGrp => &self.storgrp,
        }
    }

    /// Counts what happened in further runs.
    pub fn count_runs(&mut self, runs: &[Run]) -> Result<(), AllocError>
        ensures { OnOk result ((before : List RunOf) → AreCounted before self.old →
            AreCounted (before ++ runs.now) self.new) }
    {
        for run in runs {
            self.count_run(run)?;
        }
        Ok(())
    }

    fn count_run(&mut self, run: &Run) -> Result<(), AllocError>
        ensures { OnOk result ((kind : KindOf) (before : List Event) → AreCounts before (tallies_in self.old kind) →
            AreCounts (before ++ events_of_run kind run.now) (tallies_in self.new kind)) }
    {
        let events = run.events.as_slice();
        match run.kind {
            Kind::DataClas => self.dataclas.count_events(events),
            Kind::StorClas => self.storclas.count_events(events),
            Kind::MgmtClas => self.mgmtclas.count_events(events),
            Kind::StorGrp => self.storgrp.count_events(events),
        }
    }
}
