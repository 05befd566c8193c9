//! What a fresh request is answered.
ghost use Rattle.std.specs.Prelude.{◌<◌, ◌+◌, ◌^◌, List, ℕ, IfOk};
ghost use Rattle.desk_law.specs.State.{DeskState};
ghost use Rattle.desk_law.specs.Lawful.{IsLawful};
ghost use Rattle.desk_law.specs.Rule.{IsSound, Rule};
ghost use Rattle.desk_records.specs.Effects.{IsDecided};
ghost use Rattle.desk_state.specs.Answering.{Answers, IsOldFloor};
ghost use Rattle.desk_state.specs.Deeds.{Fits, IsPossible, config_of, effect_of};
ghost use Rattle.desk_state.specs.Standing.{IsRunning, IsSomeState};
ghost use Rattle.desk_state.specs.Working.{IsWorkNow};

use crate::decision::Decision;
use crate::operator::decide_purge;
use crate::running::Running;
use crate::using::classified_under;
use crate::work::Work;
use acs_tree::Slate;
use sms_construct::{Op, Request};
use std::alloc::AllocError;

impl Running {
    // What the op of a fresh request is answered by its rule.
    fn decide_op(
        &mut self,
        request: &Request,
        old: u32,
        work: &Work,
        slate: &mut Slate,
    ) -> Result<Decision, AllocError>
        requires state { IsSomeState self.old }
        requires counted { self.old.activations + 1 < 2 ^ 64 }
        requires sound { IsSound request.now.op }
        requires work { IsWorkNow self.old request.now slate.old work.now }
        ensures same { (s : DeskState) → IsRunning s self.old → IsRunning s self.new }
        ensures answers { IfOk result (λ made. (s : DeskState) (floors : List ℕ → ℕ) → IsLawful s →
            IsRunning s self.old → IsOldFloor floors request.now.op old →
            Answers s self.new (Rule floors s request.now.job request.now.op) made) }
        ensures possible { IfOk result (λ made. IsPossible self.new made.deed) }
    {
        match &request.op {
            Op::Alloc(alloc) => {
                let before = classified_under(work, self.activations);
                self.decide_alloc(&request.job, alloc.get(), before, slate)
            },
            Op::Activate(deck) => self.decide_activate(deck, work),
            Op::Extend(dsn) => self.decide_extend(dsn),
            Op::Delete(dsn) => Ok(self.decide_delete(dsn)),
            Op::Used { dsn, tracks } => self.decide_used(dsn, *tracks),
            Op::Release(dsn) => self.decide_release(dsn),
            Op::Display(target) => self.decide_display(target),
            Op::Vary { target, action } => Ok(self.decide_vary(target, *action)),
            Op::Purge { job, floor } => Ok(decide_purge(job, floor.get(), old)),
        }
    }

    /// What a fresh request is answered, and what is done with it (docs/manual/rules.md); `old` is the floor of the job
    /// that a PURGE names. Work that suits is used. The running state stands for the same state as before; only room
    /// is taken.
    pub fn decide(
        &mut self,
        request: &Request,
        old: u32,
        work: &Work,
        slate: &mut Slate,
    ) -> Result<Decision, AllocError>
        requires state { IsSomeState self.old }
        requires counted { self.old.activations + 1 < 2 ^ 64 }
        requires sound { IsSound request.now.op }
        requires work { IsWorkNow self.old request.now slate.old work.now }
        ensures same { (s : DeskState) → IsRunning s self.old → IsRunning s self.new }
        ensures decided { IfOk result (λ made. (s : DeskState) (floors : List ℕ → ℕ) → IsLawful s →
            IsRunning s self.old → IsOldFloor floors request.now.op old →
            IsDecided floors s request.now made.reply (effect_of made.deed) (config_of made.deed)) }
        ensures fits { IfOk result (λ made. (s : DeskState) → IsLawful s → IsRunning s self.old →
            Fits s self.new made.deed) }
        ensures possible { IfOk result (λ made. IsPossible self.new made.deed) }
    {
        self.decide_op(request, old, work, slate)
    }
}
