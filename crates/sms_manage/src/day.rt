//! A day of space management.
ghost use Rattle.std.specs.Prelude.{◌≡◌, ◌+◌, IfOk, IfSome, OnErr, OnOk, Some};
ghost use Rattle.desk_law.specs.State.{DeskState};
ghost use Rattle.desk_law.specs.History.{Reaches};
ghost use Rattle.sms_manage.specs.Managed.{IsAsking, IsDayBegun, IsManaged, IsUnused, IsUnusedFrom, op_for};
ghost use Rattle.sms_manage.specs.Managed.{WasDayBegun, WasDayBegunFrom, WasManaged, WasManagedFrom};
ghost use Rattle.sms_manage.specs.Inner.Walk.{Asks, IsNextDue};

use crate::act::{Act, Acts};
use crate::expiry::due;
use crate::wanted::Due;
use acs_tree::Slate;
use deck_meaning::Config;
use desk_common::{Items, Shared};
use dsn_mask::{Dsn, Name};
use sms_construct::{Op, Request, RequestNumber};
use sms_core::{Core, Work};
use sms_keeper::Keeper;
use std::alloc::{AllocError, Global};

// A catalog has fewer data sets than this.
const MOST_SETS: u64 = 4_294_967_296;

/// The job that asks for what is due.
pub const MANAGER: &[u8] = b"SMSMGMT";

/// Asks for all that is due on a day, one request for each data set, in byte order of their names, numbered from 1 on
/// (docs/manual/rules.md, "Space management"). Each is answered whatever the earlier ones were. Where memory is
/// wanting, some of the first were asked, and of the others none.
pub fn run_day<P: Keeper>(
    alloc: Global,
    core: &mut Core<P>,
    slate: &mut Slate,
    day: u32,
) -> Result<Acts, AllocError>
    requires { IsUnused core.old.opening core.old.journal }
    ensures managed { IfOk result (λ acts. WasManaged core.old.opening day core.old.journal core.new.journal acts) }
    ensures begun { OnErr result (WasDayBegun core.old.opening day core.old.journal core.new.journal) }
    ensures asking { IsAsking core.old.journal core.new.journal }
    ensures opening { core.new.opening ≡ core.old.opening }
    ensures mark { core.new.mark ≡ core.old.mark }
{
    // A fact for the proof; nothing changes.
    unused_from_one(core);
    run_day_from(alloc, core, slate, day, 1)
}

/// The same with requests that are numbered from the first number on, from which the job has used none.
pub fn run_day_from<P: Keeper>(
    alloc: Global,
    core: &mut Core<P>,
    slate: &mut Slate,
    day: u32,
    first: u32,
) -> Result<Acts, AllocError>
    requires { IsUnusedFrom core.old.opening core.old.journal first }
    ensures managed { IfOk result (λ acts.
        WasManagedFrom first core.old.opening day core.old.journal core.new.journal acts) }
    ensures begun { OnErr result (WasDayBegunFrom first core.old.opening day core.old.journal core.new.journal) }
    ensures asking { IsAsking core.old.journal core.new.journal }
    ensures opening { core.new.opening ≡ core.old.opening }
    ensures mark { core.new.mark ≡ core.old.mark }
{
    match active(core)? {
        Some(config) => act_all(alloc, core, slate, config.get(), day, first),
        None => Ok(Items::new(alloc)),
    }
}

// From 1 on the job has used no number where it has used none. A fact for the proof; nothing runs.
fn unused_from_one<P: Keeper>(core: &Core<P>)
    requires { IsUnused core.now.opening core.now.journal }
    ensures { IsUnusedFrom core.now.opening core.now.journal 1 }
{}

// Asks for all that is due on a day under a configuration.
fn act_all<P: Keeper>(
    alloc: Global,
    core: &mut Core<P>,
    slate: &mut Slate,
    config: &Config,
    day: u32,
    first: u32,
) -> Result<Acts, AllocError>
    requires { IsUnusedFrom core.old.opening core.old.journal first }
    ensures managed { IfOk result (λ acts. (before : DeskState) → Reaches core.old.opening core.old.journal before →
        before.active ≡ Some config.now →
        (after : DeskState) × IsManaged first core.old.opening day config.now before after core.old.journal core.new.journal
        acts) }
    ensures begun { OnErr result ((before : DeskState) → Reaches core.old.opening core.old.journal before →
        before.active ≡ Some config.now → IsDayBegun first day config.now before core.old.journal core.new.journal) }
    ensures asking { IsAsking core.old.journal core.new.journal }
    ensures opening { core.new.opening ≡ core.old.opening }
    ensures mark { core.new.mark ≡ core.old.mark }
{
    let mut acts = Vec::new(alloc);
    let mut last: Option<Dsn> = None;
    for _ in 0..MOST_SETS {
        let Some(next) = next_set(core, config, day, &last) else {
            return Ok(Items::from_vec(acts));
        };
        last = Some(next.0);
        if let Some(op) = op_for(next.1, next.0) {
            act_on(core, slate, first, next.0, op, &mut acts)?;
        }
    }
    Err(AllocError)
}

// The active configuration, if there is one.
fn active<P: Keeper>(core: &Core<P>) -> Result<Option<Shared<Config>>, AllocError>
    ensures { IfOk result (λ config. (s : DeskState) → Reaches core.now.opening core.now.journal s →
        s.active ≡ config) }
{
    match core.active() {
        Some((_, config)) => Ok(Some(config.share()?)),
        None => Ok(None),
    }
}

// The name of the data set behind this one, or of the first of all, and what is due of it.
fn next_set<P: Keeper>(
    core: &Core<P>,
    config: &Config,
    day: u32,
    last: &Option<Dsn>,
) -> Option<(Dsn, Due)>
    ensures { (s : DeskState) → Reaches core.now.opening core.now.journal s →
        IsNextDue config.now day s.sets last.now result }
{
    let set = core.set_after(last.as_ref())?;
    Some((set.dsn, due(set, config, day)))
}

// What is asked where something is due of the data set of this name.
fn op_for(wanted: Due, dsn: Dsn) -> Option<Op>
    ensures { result ≡ op_for wanted dsn }
{
    match wanted {
        Due::Nothing => None,
        Due::Delete => Some(Op::Delete(dsn)),
        Due::Release => Some(Op::Release(dsn)),
    }
}

// Asks for what is due of a data set, and stores it with the answer.
fn act_on<P: Keeper>(
    core: &mut Core<P>,
    slate: &mut Slate,
    first: u32,
    dsn: Dsn,
    op: Op,
    acts: &mut Vec<Act>,
) -> Result<(), AllocError>
    ensures asked { OnOk result (Asks first core.old.opening core.old.journal core.new.journal dsn op acts.old.items
        acts.new.items) }
    ensures unasked { OnErr result (core.new.journal ≡ core.old.journal) }
    ensures opening { core.new.opening ≡ core.old.opening }
    ensures mark { core.new.mark ≡ core.old.mark }
{
    acts.reserve(1)?;
    let Some(number) = number_behind(first, acts.len()) else {
        return Err(AllocError);
    };
    let Some(job) = Name::new(MANAGER) else {
        return Err(AllocError);
    };
    let request = Request { job, number, op };
    let answer = core.step(&request, Work::Nothing, slate);
    acts.push_reserved(Act {
        number: number.get(),
        dsn,
        answer,
    });
    Ok(())
}

// The number of the act behind so many; `None` where it is none of a request.
fn number_behind(first: u32, count: usize) -> Option<RequestNumber>
    ensures { IfSome result (λ number. number ≡ first + count) }
{
    let number = u64::from(first).checked_add(count as u64)?;
    if number > u64::from(u32::MAX) {
        return None;
    }
    RequestNumber::new(number as u32)
}
