// What a seat holds, and how it keeps up.
ghost use Rattle.std.specs.Prelude.{◌≡◌, List, IfOk, OnErr, OnOk};
ghost use Rattle.sms_construct.specs.declared.entry.Answer.{Answer as Answered};
ghost use Rattle.sms_construct.specs.declared.entry.Entry.{Entry as Entered};
ghost use Rattle.sms_construct.specs.declared.request.Request.{Request as Asked};
ghost use Rattle.desk_law.specs.History.{IsLegal};
ghost use Rattle.sms_desk.specs.Holding.{GoesOn, IsCurrent, IsHolding, IsOwn, held_under, holds};
ghost use Rattle.sms_desk.specs.Holding.{renewed as renewed_as};

use crate::held::Held;
use deck_meaning::Config;
use desk_common::Shared;
use sms_core::Core;
use sms_keeper::Keeper;
use std::alloc::AllocError;

/// Whether so many activations are those under which the seat holds its configuration.
pub fn holds(held: &Option<Held>, count: u64) -> bool
    ensures { result ≡ holds held.now count }
{
    match held {
        Some(held) => held.count == count,
        None => false,
    }
}

/// Whether what is held is active.
pub fn is_current<P: Keeper>(core: &Core<P>, held: &Option<Held>) -> bool {
    match core.active() {
        Some((count, _)) => holds(held, count),
        None => held.is_none(),
    }
}

/// Lets the seat hold the active configuration, where it doesn't yet. Where memory is wanting it holds what it held.
pub fn refresh<P: Keeper>(core: &Core<P>, held: &mut Option<Held>) -> Result<(), AllocError>
    ensures legal { IsLegal core.now.opening core.now.journal }
    ensures current { OnOk result (IsHolding core.now.opening core.now.journal held.old →
        IsCurrent core.now.opening core.now.journal held.new) }
    ensures same { OnErr result (held.new ≡ held.old) }
{
    // A fact for the proof; nothing changes.
    let _journal = core.journal();
    match core.active() {
        Some((count, config)) => {
            if !holds(held, count) {
                *held = Some(held_at(count, config)?);
            }
        }
        None => *held = None,
    }
    Ok(())
}

// The configuration with one owner more, held under so many activations.
fn held_at(count: u64, config: &Shared<Config>) -> Result<Held, AllocError>
    ensures { IfOk result (λ held. held ≡ record { count = count; config = config.now }) }
{
    Ok(Held {
        count,
        config: config.share()?,
    })
}

/// Lets the seat hold its own deck's configuration, where a step has just made it the active one. It takes no memory.
pub fn renew<P: Keeper>(core: &Core<P>, held: &mut Option<Held>, own: Option<Shared<Config>>)
    ensures legal { IsLegal core.now.opening core.now.journal }
    ensures current { (old : List Entered) (request : Asked) (answer : Answered) →
        GoesOn core.now.opening old core.now.journal request answer → IsOwn request own
        → IsCurrent core.now.opening old held.old → IsCurrent core.now.opening core.now.journal held.new }
{
    // A fact for the proof; nothing changes.
    let _journal = core.journal();
    match core.active() {
        Some((count, _)) => *held = renewed(count, own, held.take()),
        None => {}
    }
}

// What the seat holds after so many activations: what it held if that is it, and else its own.
fn renewed(count: u64, own: Option<Shared<Config>>, held: Option<Held>) -> Option<Held>
    ensures { result ≡ renewed_as count own held }
{
    if holds(&held, count) {
        held
    } else {
        held_under(count, own)
    }
}

fn held_under(count: u64, own: Option<Shared<Config>>) -> Option<Held>
    ensures { result ≡ held_under count own }
{
    match own {
        Some(config) => Some(Held { count, config }),
        None => None,
    }
}
