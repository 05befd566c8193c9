//! ALLOC.
ghost use Rattle.std.specs.Prelude.{true, ◌≡◌, ℕ, List, IfOk, IfSome, None, Some};
ghost use Rattle.std.specs.Option.{option_copied};
ghost use Rattle.acs_tree.specs.Slates.{blank};
ghost use Rattle.sms_construct.specs.Configuration.{Configuration};
ghost use Rattle.desk_law.specs.Allocation.{AllocRule, GrantRule};
ghost use Rattle.desk_law.specs.Classification.{trace_of};
ghost use Rattle.desk_law.specs.Lawful.{IsLawful};
ghost use Rattle.desk_law.specs.State.{DeskState};
ghost use Rattle.sms_classes.specs.Known.{AreKnown};
ghost use Rattle.sms_classes.specs.declared.classified.Classified.{Classified as Came};
ghost use Rattle.desk_state.specs.Answering.{Answers};
ghost use Rattle.desk_state.specs.Catalog.{set_in};
ghost use Rattle.desk_state.specs.Deeds.{IsPossible};
ghost use Rattle.desk_state.specs.Standing.{IsRunning, IsSomeState};
ghost use Rattle.desk_state.specs.Inner.Wishing.{ClassifiedRule, classes_with, set_granted};
ghost use Rattle.desk_state.specs.Working.{IsClassified};

use crate::decision::Decision;
use crate::deed::Deed;
use crate::grant::Grant;
use crate::running::Running;
use crate::wish::Wish;
use acs_tree::{Kind, Slate};
use deck_meaning::Config;
use desk_common::Shared;
use dsn_mask::Name;
use sms_classes::{Classified, classes_are_known, classify, data_class_of, space_of, stop_reply};
use sms_construct::{Alloc, Reply, Stop, Trace};
use sms_volumes::Candidates;
use std::alloc::{AllocError, Global};

impl Running {
    /// What ALLOC is answered (docs/manual/rules.md, "ALLOC"). What it was classified as before, under the active
    /// configuration, is used. What was on the slate may be gone.
    pub(crate) fn decide_alloc(
        &mut self,
        job: &Name,
        alloc: &Alloc,
        before: Option<&Classified>,
        slate: &mut Slate,
    ) -> Result<Decision, AllocError>
        requires state { IsSomeState self.old }
        requires before { IfSome (option_copied before) (λ (made : Came). (config : Configuration) →
            self.old.config ≡ Some config → IsClassified config job.now alloc.now made slate.old) }
        ensures same { (s : DeskState) → IsRunning s self.old → IsRunning s self.new }
        ensures answers { IfOk result (λ made. (s : DeskState) → IsLawful s → IsRunning s self.old →
            Answers s self.new (AllocRule s job.now alloc.now) made) }
        ensures possible { IfOk result (λ made. IsPossible self.new made.deed) }
    {
        let Some(config) = &self.config else {
            return Ok(Decision::quiet(Reply::NoConfig));
        };
        if self.catalog.get(&alloc.dsn()).is_some() {
            return Ok(Decision::quiet(Reply::NameInUse));
        }
        let config = config.share()?;
        self.decide_unused(config.get(), job, alloc, before, slate)
    }

    // The same where this configuration is active; no data set of its name is catalogued.
    fn decide_unused(
        &mut self,
        config: &Config,
        job: &Name,
        alloc: &Alloc,
        before: Option<&Classified>,
        slate: &mut Slate,
    ) -> Result<Decision, AllocError>
        requires stands { IsSomeState self.old }
        requires active { self.old.config ≡ Some config.now }
        requires unused { set_in alloc.now.input.dsn self.old.catalog.sets ≡ None }
        requires before { IfSome (option_copied before)
            (λ (made : Came). IsClassified config.now job.now alloc.now made slate.old) }
        ensures same { (s : DeskState) → IsRunning s self.old → IsRunning s self.new }
        ensures answers { IfOk result (λ made. (s : DeskState) → IsLawful s → IsRunning s self.old →
            Answers s self.new (AllocRule s job.now alloc.now) made) }
        ensures possible { IfOk result (λ made. IsPossible self.new made.deed) }
    {
        // A fact for the proof; nothing changes.
        classes_are_known(config);
        match before {
            Some(classified) => self.decide_as_classified(config, alloc, classified, slate),
            None => self.decide_unclassified(config, job, alloc, slate),
        }
    }

    // The same where it wasn't classified before.
    fn decide_unclassified(
        &mut self,
        config: &Config,
        job: &Name,
        alloc: &Alloc,
        slate: &mut Slate,
    ) -> Result<Decision, AllocError>
        requires stands { IsSomeState self.old }
        requires active { self.old.config ≡ Some config.now }
        requires unused { set_in alloc.now.input.dsn self.old.catalog.sets ≡ None }
        ensures same { (s : DeskState) → IsRunning s self.old → IsRunning s self.new }
        ensures answers { IfOk result (λ made. (s : DeskState) → IsLawful s → IsRunning s self.old →
            Answers s self.new (AllocRule s job.now alloc.now) made) }
        ensures possible { IfOk result (λ made. IsPossible self.new made.deed) }
    {
        let classified = classify(config, job, alloc, slate);
        self.decide_as_classified(config, alloc, &classified, slate)
    }

    // The same where it was classified so, with what is on the slate.
    fn decide_as_classified(
        &mut self,
        config: &Config,
        alloc: &Alloc,
        classified: &Classified,
        slate: &Slate,
    ) -> Result<Decision, AllocError>
        requires stands { IsSomeState self.old }
        requires active { self.old.config ≡ Some config.now }
        requires unused { set_in alloc.now.input.dsn self.old.catalog.sets ≡ None }
        requires known { classified.now.stop ≡ Stop.Done → AreKnown config.now classified.now.values }
        ensures same { (s : DeskState) → IsRunning s self.old → IsRunning s self.new }
        ensures answers { IfOk result (λ made. (s : DeskState) (job : List ℕ) →
            IsClassified config.now job alloc.now classified.now slate.now → IsLawful s → IsRunning s self.old →
            Answers s self.new (AllocRule s job alloc.now) made) }
        ensures possible { IfOk result (λ made. IsPossible self.new made.deed) }
    {
        let trace = self.trace_of(slate)?;
        self.decide_classified(config, alloc, classified, trace)
    }

    // What the routines wrote; the trace without lines is shared by all.
    fn trace_of(&mut self, slate: &Slate) -> Result<Shared<Trace>, AllocError>
        ensures trace { IfOk result
            (λ trace. trace ≡ record { lines = slate.now.lines; more = slate.now.more }) }
        ensures config { self.new.config ≡ self.old.config }
        ensures sets { (dsn : List ℕ) → set_in dsn self.new.catalog.sets ≡ set_in dsn self.old.catalog.sets }
        ensures same { (s : DeskState) → IsRunning s self.old → IsRunning s self.new }
    {
        if is_blank(slate) {
            return self.blank.share(self.alloc);
        }
        Shared::new(self.alloc, Trace::of(self.alloc, slate)?)
    }

    // What ALLOC is answered where the classification under the active configuration came to this and its
    // routines wrote this; no data set of its name is catalogued.
    fn decide_classified(
        &mut self,
        config: &Config,
        alloc: &Alloc,
        classified: &Classified,
        trace: Shared<Trace>,
    ) -> Result<Decision, AllocError>
        requires stands { IsSomeState self.old }
        requires active { self.old.config ≡ Some config.now }
        requires unused { set_in alloc.now.input.dsn self.old.catalog.sets ≡ None }
        requires known { classified.now.stop ≡ Stop.Done → AreKnown config.now classified.now.values }
        ensures same { (s : DeskState) → IsRunning s self.old → IsRunning s self.new }
        ensures answers { IfOk result (λ made. (s : DeskState) → IsLawful s → IsRunning s self.old →
            Answers s self.new (ClassifiedRule s config.now alloc.now
            (classes_with classified.now.values classified.now.stop trace)) made) }
        ensures possible { IfOk result (λ made. IsPossible self.new made.deed) }
    {
        let trace = match stop_reply(classified.stop, trace) {
            Ok(trace) => trace,
            Err(reply) => return Ok(Decision::quiet(reply)),
        };
        let values = &classified.values;
        match space_of(alloc, data_class_of(config, &values.dataclas)) {
            Some(space) => self.decide_wish(alloc, Wish::of(alloc, config, values, trace, space)),
            None => Ok(Decision::quiet(Reply::NoQuantity { trace })),
        }
    }

    // What ALLOC is answered where the new data set is to get this.
    fn decide_wish(&mut self, alloc: &Alloc, wish: Wish<'_>) -> Result<Decision, AllocError>
        requires stands { IsSomeState self.old }
        requires unused { set_in alloc.now.input.dsn self.old.catalog.sets ≡ None }
        ensures same { (s : DeskState) → IsRunning s self.old → IsRunning s self.new }
        ensures answers { IfOk result (λ made. (s : DeskState) → IsLawful s → IsRunning s self.old →
            s.active ≡ Some wish.entry.config → Answers s self.new (GrantRule s alloc.now wish.entry) made) }
        ensures possible { IfOk result (λ made. IsPossible self.new made.deed) }
    {
        let candidates = Candidates::Listed(wish.groups());
        match self.grant_among(&candidates, &wish.asked())? {
            Some(grant) => granted(self.alloc, alloc, wish, grant),
            None => Ok(Decision::quiet(Reply::NoVolume {
                trace: wish.into_trace(),
            })),
        }
    }
}

// Whether nothing is on the slate.
fn is_blank(slate: &Slate) -> bool
    ensures { result ≡ true → slate.now ≡ blank }
{
    slate.lines().is_empty()
        && slate.more(Kind::DataClas) == 0
        && slate.more(Kind::StorClas) == 0
        && slate.more(Kind::MgmtClas) == 0
        && slate.more(Kind::StorGrp) == 0
}

// The decision that the new data set gets what is granted.
fn granted(
    alloc: Global,
    request: &Alloc,
    wish: Wish<'_>,
    grant: Grant,
) -> Result<Decision, AllocError>
    ensures { IfOk result
        (λ made. made ≡ record {
          reply = Reply.Granted (set_granted request.now wish.entry grant)
              (trace_of wish.entry.classes);
          deed = Deed.Get (set_granted request.now wish.entry grant) grant.place
              grant.pieces;
        }) }
{
    let set = wish.new_set(alloc, request, &grant.volume, grant.pieces.as_slice())?;
    Ok(Decision {
        reply: Reply::Granted {
            set: set.share()?,
            trace: wish.into_trace(),
        },
        deed: Deed::Get {
            set,
            place: grant.place,
            pieces: grant.pieces,
        },
    })
}
