//! The core: the journal, the state after it, and the records.
ghost use Rattle.std.specs.Prelude.{true, ◌≡◌, ◌≤◌, ◌<◌, ◌+◌, ◌-◌, ◌^◌, [], cond, IfErr, IfOk, IfSome, length};
ghost use Rattle.std.specs.Prelude.{MatchOption, map, min, None, Some};
ghost use Rattle.std.specs.Option.{option_copied};
ghost use Rattle.sms_keeper.specs.Tables.{AreSame, no_rows};
ghost use Rattle.desk_law.specs.State.{DeskState, set_named, start_of};
ghost use Rattle.desk_law.specs.Display.{shown_volume};
ghost use Rattle.desk_law.specs.Volumes.{volumes_in};
ghost use Rattle.desk_law.specs.Step.{is_activation};
ghost use Rattle.desk_law.specs.History.{IsLegal, Reaches, WasActive};
ghost use Rattle.desk_law.specs.Records.{empty_opening};
ghost use Rattle.desk_records.specs.Tied.{IsLogOf, IsSoundOpening, faults_in};
ghost use Rattle.desk_restoring.specs.Opened.{opening_behind, opening_of};
ghost use Rattle.desk_state.specs.Following.{IsNextSet};
ghost use Rattle.desk_state.specs.Standing.{IsRunning};
ghost use Rattle.desk_state.specs.Working.{IsWork};
ghost use Rattle.sms_core.specs.Core.{Enters, HasTables, WasTold, last_place, needs_no_commit};

use crate::preparing::{Prepared, prepare};
use crate::room::take_room;
use acs_tree::Slate;
use deck_meaning::Config;
use desk_common::{Items, Shared};
use desk_records::{Opening, Records, is_full, request_is_sound};
use desk_restoring::{Restored, greatest_place, restore};
use desk_state::{Running, Work};
use dsn_mask::Dsn;
use sms_construct::{Answer, DataSet, Entry, Journal, Op, Reply, Request, VolRows};
use sms_keeper::{Keeper, RequestLog, Rows};
use std::alloc::{AllocError, Global};
use std::marker::Model;
use std::mem::forget;
use std::snapshot::Snapshot;

/// The desk's core over a keeper of its records.
#[derive(Drop)]
pub struct Core<P: Keeper> {
    opening: Snapshot<Opening>,
    base: u64,
    mark: u64,
    journal: Vec<Entry>,
    // how many of the entries ask for an activation
    asked: usize,
    running: Running,
    records: Records<P>,
}

impl<P: Keeper> Model for Core<P> {
    ghost use Rattle.acs_tree.specs.contracts.routine.Form as form;
    ghost use Rattle.std.specs.Coded.{codes};
    ghost use Rattle.sms_core.specs.Core.{CoreView};
    ghost use Rattle.sms_core.specs.Inner.Standing.{IsCore};

    ghost Value = { CoreView P };

    ghost coded = { Prim.hlevel (codes, form.the_row.coded, P.code) };

    ghost view = { λ c. record {
      opening = c.opening.value;
      journal = c.journal.items;
      keeper = c.records.keeper;
      mark = c.mark;
    } };

    ghost invariant = { λ c. IsCore c.opening.value c.base c.asked c.journal.items c.running c.records.log
        (P.told c.records.keeper) c.mark (P.count c.records.keeper) };
}

impl<P: Keeper> Core<P> {
    /// A desk with nothing active and nothing catalogued, over a keeper of empty tables. It takes no memory.
    pub fn new(alloc: Global, keeper: P) -> Self
        requires { IfSome (P.told keeper) (λ rows. AreSame rows no_rows) }
        ensures opening { result.opening ≡ empty_opening }
        ensures journal { result.journal ≡ [] }
        ensures keeper { result.keeper ≡ keeper }
        ensures mark { result.mark ≡ P.count keeper }
    {
        Core::over(
            alloc,
            Opening::empty_snapshot(alloc),
            0,
            Running::new(alloc),
            RequestLog::new(alloc),
            keeper,
        )
    }

    /// A desk that goes on from recorded rows, whose last deck gave this configuration, over the keeper of these rows
    /// (docs/manual/records.md); or want of memory, with the keeper. No data set and no reply is copied.
    pub fn resume(
        alloc: Global,
        keeper: P,
        rows: Rows,
        config: Option<Config>,
    ) -> Result<Self, (P, AllocError)>
        requires sound { IsSoundOpening (opening_of rows config) }
        requires tables { IfSome (P.told keeper) (λ told. AreSame told rows) }
        ensures opening { IfOk result (λ core. core.opening ≡ opening_of rows config) }
        ensures journal { IfOk result (λ core. core.journal ≡ []) }
        ensures keeper { IfOk result (λ core. core.keeper ≡ keeper) }
        ensures mark { IfOk result (λ core. core.mark ≡ P.count keeper) }
        ensures err { IfErr result (λ back. back.0 ≡ keeper) }
    {
        Core::resume_behind(alloc, keeper, rows, config, 0)
    }

    /// The same, and its entries come behind this place too.
    pub fn resume_behind(
        alloc: Global,
        keeper: P,
        rows: Rows,
        config: Option<Config>,
        place: u64,
    ) -> Result<Self, (P, AllocError)>
        requires sound { IsSoundOpening (opening_behind place rows config) }
        requires tables { IfSome (P.told keeper) (λ told. AreSame told rows) }
        ensures opening { IfOk result (λ core. core.opening ≡ opening_behind place rows config) }
        ensures journal { IfOk result (λ core. core.journal ≡ []) }
        ensures keeper { IfOk result (λ core. core.keeper ≡ keeper) }
        ensures mark { IfOk result (λ core. core.mark ≡ P.count keeper) }
        ensures err { IfErr result (λ back. back.0 ≡ keeper) }
    {
        let base = place.max(greatest_place(rows.replies.as_slice()));
        let opening = Opening { rows, config, base };
        let begun = Snapshot::of(&opening);
        match restore(alloc, opening) {
            Ok(Restored { running, log }) => {
                Ok(Core::over(alloc, begun, base, running, log, keeper))
            }
            Err(error) => Err((keeper, error)),
        }
    }

    // A desk behind this opening, which the running state and the log stand for.
    fn over(
        alloc: Global,
        opening: Snapshot<Opening>,
        base: u64,
        running: Running,
        log: RequestLog,
        keeper: P,
    ) -> Self
        requires sound { IsSoundOpening opening.value }
        requires tables { IfSome (P.told keeper) (λ rows. AreSame rows opening.value.rows) }
        requires base { base ≡ opening.value.base }
        requires running { IsRunning (start_of opening.value) running }
        requires log { IsLogOf opening.value.rows.floors opening.value.rows.replies log }
        ensures opening { result.opening ≡ opening.value }
        ensures journal { result.journal ≡ [] }
        ensures keeper { result.keeper ≡ keeper }
        ensures mark { result.mark ≡ P.count keeper }
    {
        let mark = keeper.faults();
        Core {
            opening,
            base,
            mark,
            journal: Vec::new(alloc),
            asked: 0,
            running,
            records: Records { log, keeper },
        }
    }

    /// Answers one request and enters it in the journal (docs/manual/rules.md, "Order of answers"). Work that was done
    /// for it before is used where it suits, and makes no difference to the answer ("Work before a step"); where its
    /// deck was read with want of memory, so is the answer to a fresh number. Where the journal is full or memory is
    /// wanting, nothing changes and nothing is entered. What was on the slate may be gone.
    pub fn step(&mut self, request: &Request, work: Work, slate: &mut Slate) -> Answer
        requires work { IsWork self.old.opening self.old.journal request.now slate.old work }
        ensures opening { self.new.opening ≡ self.old.opening }
        ensures mark { self.new.mark ≡ self.old.mark }
        ensures enters { Enters self.old.opening self.old.journal self.new.journal (P.told self.old.keeper)
            (P.told self.new.keeper) (P.count self.old.keeper) (P.count self.new.keeper) request.now result }
        ensures told { WasTold (P.told self.old.keeper) (P.told self.new.keeper) }
        ensures idle { needs_no_commit self.old.opening self.old.journal request.now ≡ true →
            self.new.keeper ≡ self.old.keeper }
    {
        if is_full(&self.journal, self.asked, &request.op) {
            return without_entry(Reply::JournalFull);
        }
        if take_room(&mut self.journal, &mut self.records).is_err() {
            return without_entry(Reply::Memory);
        }
        // Facts for the proof; nothing changes.
        request_is_sound(request);
        let place = self.base + self.journal.len() as u64 + 1;
        let made = prepare(
            place,
            request,
            &mut self.running,
            &mut self.records,
            &work,
            slate,
        );
        let Ok(Prepared { entry, answer }) = made else {
            return without_entry(Reply::Memory);
        };
        self.asked += activations_of(&request.op);
        self.journal.push_reserved(entry);
        answer
    }

    /// All entries so far, in their order: a legal history behind the opening. Of its entries no more are faults of
    /// the keeper than the keeper counted since it was handed in, unless its count stands at its greatest value.
    pub fn journal(&self) -> &[Entry]
        ensures entries { result.now ≡ self.now.journal }
        ensures sound { IsSoundOpening self.now.opening }
        ensures legal { IsLegal self.now.opening self.now.journal }
        ensures counted { min (self.now.mark + faults_in self.now.journal) (2 ^ 64 - 1) ≤ P.count self.now.keeper }
        ensures tables { HasTables self.now.opening self.now.journal (P.told self.now.keeper) }
    {
        &self.journal
    }

    /// The place of the last entry; where there is none, the place behind which the first will stand.
    pub fn last_place(&self) -> u64
        ensures { result ≡ last_place self.now }
    {
        self.base + self.journal.len() as u64
    }

    /// The active configuration, with the number of activations that there were. Who shares it can classify under it
    /// before a step (docs/manual/rules.md, "Work before a step").
    pub fn active(&self) -> Option<(u64, &Shared<Config>)>
        ensures was { IfSome result (λ active. WasActive self.now.opening self.now.journal active.0 active.1.now) }
        ensures now { (s : DeskState) → Reaches self.now.opening self.now.journal s →
            MatchOption result (s.active ≡ None) (λ active. (active.0 ≡ s.activations) ×
            (s.active ≡ Some active.1.now)) }
    {
        match &self.running.config {
            Some(config) => Some((self.running.activations, config)),
            None => None,
        }
    }

    /// All volumes of the active configuration as reports show them, in byte order and fewer than 2^32, or want of
    /// memory.
    pub fn vol_rows(&self) -> Result<VolRows, AllocError>
        ensures rows { IfOk result (λ rows. (s : DeskState) → Reaches self.now.opening self.now.journal s →
            rows ≡ map (shown_volume s) (volumes_in s.active)) }
        ensures few { IfOk result (λ rows. length rows < 2 ^ 32) }
    {
        self.running.volumes.rows(self.running.alloc)
    }

    /// The catalogued data set of this name.
    pub fn set(&self, dsn: &Dsn) -> Option<&DataSet>
        ensures { (s : DeskState) → Reaches self.now.opening self.now.journal s →
            option_copied result ≡ set_named dsn.now s.sets }
    {
        match self.running.catalog.get(dsn) {
            Some(set) => Some(set.get()),
            None => None,
        }
    }

    /// The first catalogued data set behind this name in the order of bytes; without a name, the first of all.
    pub fn set_after(&self, dsn: Option<&Dsn>) -> Option<&DataSet>
        ensures { (s : DeskState) → Reaches self.now.opening self.now.journal s →
            IsNextSet (option_copied dsn.entry) s.sets (option_copied result) }
    {
        match self.running.catalog.next(dsn) {
            Some(set) => Some(set.get()),
            None => None,
        }
    }

    /// The keeper.
    pub fn keeper(&self) -> &P
        ensures { result.now ≡ self.now.keeper }
    {
        &self.records.keeper
    }

    /// The keeper and the journal, when the desk closes.
    pub fn into_parts(self) -> (P, Journal)
        ensures keeper { result.0 ≡ self.keeper }
        ensures entries { result.1 ≡ self.journal }
        ensures legal { IsLegal self.opening self.journal }
        ensures counted { min (self.mark + faults_in self.journal) (2 ^ 64 - 1) ≤ P.count self.keeper }
        ensures tables { HasTables self.opening self.journal (P.told self.keeper) }
    {
        let Core {
            journal,
            records,
            ..
        } = self;
        let Records { keeper, .. } = records;
        (keeper, Items::from_vec(journal))
    }

    /// The keeper, for a program that ends behind this: the journal, the running state and the log aren't freed.
    pub fn into_keeper(self) -> P
        ensures { result ≡ self.keeper }
    {
        let Core {
            journal,
            running,
            records,
            ..
        } = self;
        let Records { log, keeper } = records;
        forget(journal);
        forget(running);
        forget(log);
        keeper
    }
}

// The answer without an entry.
fn without_entry(reply: Reply) -> Answer
    ensures { result ≡ record { place = 0; first = 0; reply = reply } }
{
    Answer {
        place: 0,
        first: 0,
        reply,
    }
}

// 1 for an op that asks for an activation, and else 0.
fn activations_of(op: &Op) -> usize
    ensures { result ≡ cond (is_activation op.now) 1 0 }
{
    usize::from(matches!(op, Op::Activate(_)))
}
