//! VARY, DISPLAY and PURGE.
ghost use Rattle.std.specs.Prelude.{◌≡◌, Option, IfOk};
ghost use Rattle.sms_construct.specs.declared.view.View.{View as Shown};
ghost use Rattle.desk_law.specs.State.{DeskState};
ghost use Rattle.desk_law.specs.Display.{DisplayRule, reply_for_none, view_of_target};
ghost use Rattle.desk_law.specs.Lawful.{IsLawful};
ghost use Rattle.desk_law.specs.Purging.{PurgeRule};
ghost use Rattle.desk_law.specs.Varying.{VaryRule};
ghost use Rattle.desk_state.specs.Answering.{Answers};
ghost use Rattle.desk_state.specs.Deeds.{IsPossible};
ghost use Rattle.desk_state.specs.Standing.{IsRunning, IsSomeState};
ghost use Rattle.desk_state.specs.declared.running.Running.{Running as Standing};

use crate::decision::Decision;
use crate::deed::Deed;
use crate::running::Running;
use dsn_mask::Name;
use sms_construct::{Action, Reply, Target, View};
use std::alloc::AllocError;

impl Running {
    /// What VARY is answered (docs/manual/rules.md, "VARY").
    pub(crate) fn decide_vary(&self, target: &Target, action: Action) -> Decision
        ensures answers { (s : DeskState) → IsLawful s → IsRunning s self.now →
            Answers s self.now (VaryRule s target.now action) result }
        ensures possible { IsPossible self.now result.deed }
    {
        if !self.volumes.has(target) {
            return Decision::quiet(Reply::UnknownName);
        }
        let status = action.status();
        Decision {
            reply: Reply::Varied {
                target: *target,
                status,
            },
            deed: Deed::Vary {
                target: *target,
                status,
            },
        }
    }

    // What DISPLAY shows of the target, if it is there.
    fn view(&self, target: &Target) -> Result<Option<View>, AllocError>
        requires { IsSomeState self.now }
        ensures { IfOk result (λ (shown : Option Shown). (s : DeskState) → IsRunning s self.now →
            shown ≡ view_of_target s target.now) }
    {
        match target {
            Target::Group(name) => Ok(self.volumes.group(name)),
            Target::Volume(volser) => Ok(self.volumes.volume(volser).map(View::Volume)),
            Target::Set(dsn) => match self.catalog.get(dsn) {
                Some(set) => Ok(Some(View::Set(set.share()?))),
                None => Ok(None),
            },
        }
    }

    /// What DISPLAY is answered (docs/manual/rules.md, "DISPLAY").
    pub(crate) fn decide_display(&self, target: &Target) -> Result<Decision, AllocError>
        requires { IsSomeState self.now }
        ensures answers { IfOk result (λ made. (s : DeskState) → IsLawful s → IsRunning s self.now →
            Answers s self.now (DisplayRule s target.now) made) }
        ensures possible { IfOk result (λ made. IsPossible self.now made.deed) }
    {
        match self.view(target)? {
            Some(view) => Ok(Decision::quiet(Reply::Shown(view))),
            None => Ok(Decision::quiet(reply_for_none(target))),
        }
    }
}

// The reply where the target isn't there.
fn reply_for_none(target: &Target) -> Reply
    ensures { result ≡ reply_for_none target.now }
{
    match target {
        Target::Group(_) | Target::Volume(_) => Reply::UnknownName,
        Target::Set(_) => Reply::NotFound,
    }
}

/// What PURGE is answered, where the floor of the job was `old` (docs/manual/rules.md, "PURGE").
pub(crate) fn decide_purge(job: &Name, floor: u32, old: u32) -> Decision
    ensures answers { (s : DeskState) (running : Standing) → Answers s running (PurgeRule s old job.now floor) result }
    ensures possible { (running : Standing) → IsPossible running result.deed }
{
    let floor = floor.max(old);
    Decision {
        reply: Reply::Purged { job: *job, floor },
        deed: Deed::Raise { job: *job, floor },
    }
}
