// The entry of a request, made with all that it changes.
ghost use Rattle.std.specs.Prelude.{◌≡◌, ◌≤◌, ◌<◌, ◌+◌, ◌^◌, ℕ, List, IfOk, OnErr};
ghost use Rattle.desk_common.specs.Causes.{Rose};
ghost use Rattle.sms_construct.specs.declared.entry.Entry.{Entry as Entered};
ghost use Rattle.sms_construct.specs.declared.reply.Reply.TheVariants.{KeeperFault};
ghost use Rattle.sms_keeper.specs.Log.{floor_in};
ghost use Rattle.sms_keeper.specs.Suits.{SuitsOp};
ghost use Rattle.desk_law.specs.State.{DeskState, Opening};
ghost use Rattle.desk_law.specs.Rule.{IsSound};
ghost use Rattle.desk_records.specs.Effects.{IsDecided};
ghost use Rattle.desk_records.specs.Recall.{IsUnknown};
ghost use Rattle.desk_records.specs.Tied.{IsReady};
ghost use Rattle.desk_state.specs.Deeds.{Fits, IsPossible, config_of, effect_of};
ghost use Rattle.desk_state.specs.Answering.{IsOldFloor};
ghost use Rattle.desk_state.specs.Standing.{IsRunning, IsSomeState};
ghost use Rattle.desk_state.specs.Working.{IsWorkNow};
ghost use Rattle.sms_core.specs.Core.{WasTold};
ghost use Rattle.sms_core.specs.Inner.Standing.{HasEntered, HasLogRoom, IsMadeFor, IsUnmade};

use acs_tree::Slate;
use desk_records::{Records, recall};
use desk_state::{Decision, Deed, Running, Work};
use sms_construct::{Answer, Entry, Op, Reply, Request};
use sms_keeper::{Change, Keeper, RequestLog};
use std::alloc::{AllocError, Global};

/// An entry, and its answer to hand out.
#[derive(Drop)]
pub struct Prepared {
    pub entry: Entry,
    pub answer: Answer,
}

/// Answers a request at this place of the journal, whose room was taken, and makes all that its entry changes. Work
/// that suits is used. Where memory is wanting, nothing has changed.
pub fn prepare<P: Keeper>(
    place: u64,
    request: &Request,
    running: &mut Running,
    records: &mut Records<P>,
    work: &Work,
    slate: &mut Slate,
) -> Result<Prepared, AllocError>
    requires state { IsSomeState running.old }
    requires sound { IsSound request.now.op }
    requires work { IsWorkNow running.old request.now slate.old work.now }
    requires counted { running.old.activations + 1 < 2 ^ 64 }
    requires room { HasLogRoom records.old.log }
    ensures made { IfOk result (λ made. IsMadeFor request.now made.entry made.answer (P.count records.old.keeper)
        (P.count records.new.keeper)) }
    ensures enters { IfOk result (λ made. (o : Opening) (h : List Entered) (s : DeskState) (mark : ℕ) →
        IsReady o h s records.old.log (P.told records.old.keeper) mark (P.count records.old.keeper) place request.now →
        IsRunning s running.old →
        HasEntered o h s made.entry running.new records.new.log (P.told records.new.keeper) mark
        (P.count records.new.keeper)) }
    ensures cause { IfOk result (λ made. (o : Opening) (h : List Entered) (s : DeskState) (mark : ℕ) →
        IsReady o h s records.old.log (P.told records.old.keeper) mark (P.count records.old.keeper) place request.now →
        made.entry.answer.reply ≡ KeeperFault → Rose (P.count records.old.keeper) (P.count records.new.keeper)) }
    ensures unmade { OnErr result (IsUnmade running.old running.new records.old.log records.new.log
        (P.told records.old.keeper) (P.told records.new.keeper) (P.count records.old.keeper)
        (P.count records.new.keeper)) }
    ensures idle { (IsUnknown records.old.log request.now → ⊥) → records.new.keeper ≡ records.old.keeper }
    ensures told { WasTold (P.told records.old.keeper) (P.told records.new.keeper) }
    ensures rises { P.count records.old.keeper ≤ P.count records.new.keeper }
{
    match recall(&records.log, request, place)? {
        Some(answer) => recalled(request, answer),
        None => prepare_fresh(place, request, running, records, work, slate),
    }
}

// The entry of a request whose answer was recalled.
fn recalled(request: &Request, answer: Answer) -> Result<Prepared, AllocError>
    ensures answer { IfOk result (λ made. made.answer ≡ answer) }
    ensures entry { IfOk result (λ made. made.entry ≡ record { request = request.now; answer = answer }) }
{
    Ok(Prepared {
        entry: Entry {
            request: request.copy()?,
            answer: answer.copy()?,
        },
        answer,
    })
}

// The same for a request whose number is fresh.
fn prepare_fresh<P: Keeper>(
    place: u64,
    request: &Request,
    running: &mut Running,
    records: &mut Records<P>,
    work: &Work,
    slate: &mut Slate,
) -> Result<Prepared, AllocError>
    requires unknown { IsUnknown records.old.log request.now }
    requires state { IsSomeState running.old }
    requires sound { IsSound request.now.op }
    requires work { IsWorkNow running.old request.now slate.old work.now }
    requires counted { running.old.activations + 1 < 2 ^ 64 }
    requires room { HasLogRoom records.old.log }
    ensures made { IfOk result (λ made. IsMadeFor request.now made.entry made.answer (P.count records.old.keeper)
        (P.count records.new.keeper)) }
    ensures enters { IfOk result (λ made. (o : Opening) (h : List Entered) (s : DeskState) (mark : ℕ) →
        IsReady o h s records.old.log (P.told records.old.keeper) mark (P.count records.old.keeper) place request.now →
        IsRunning s running.old →
        HasEntered o h s made.entry running.new records.new.log (P.told records.new.keeper) mark
        (P.count records.new.keeper)) }
    ensures cause { IfOk result (λ made. made.entry.answer.reply ≡ KeeperFault →
        Rose (P.count records.old.keeper) (P.count records.new.keeper)) }
    ensures unmade { OnErr result (IsUnmade running.old running.new records.old.log records.new.log
        (P.told records.old.keeper) (P.told records.new.keeper) (P.count records.old.keeper)
        (P.count records.new.keeper)) }
    ensures told { WasTold (P.told records.old.keeper) (P.told records.new.keeper) }
    ensures rises { P.count records.old.keeper ≤ P.count records.new.keeper }
{
    let old = old_floor(&records.log, &request.op);
    let decision = running.decide(request, old, work, slate)?;
    running.reserve()?;
    carry_out(place, request, decision, running, records)
}

// The floor of the job that a PURGE names.
fn old_floor(log: &RequestLog, op: &Op) -> u32
    ensures { IsOldFloor (λ job. floor_in job log.now.floors) op.now result }
{
    match op {
        Op::Purge { job, .. } => log.floor(job),
        Op::Alloc(_)
        | Op::Activate(_)
        | Op::Extend(_)
        | Op::Delete(_)
        | Op::Used { .. }
        | Op::Release(_)
        | Op::Display(_)
        | Op::Vary { .. } => 0,
    }
}

// The entry of a fresh request for which this was decided: all copies are made, the change is committed, and then
// what was decided is done.
fn carry_out<P: Keeper>(
    place: u64,
    request: &Request,
    decision: Decision,
    running: &mut Running,
    records: &mut Records<P>,
) -> Result<Prepared, AllocError>
    requires unknown { IsUnknown records.old.log request.now }
    requires suits { SuitsOp request.now.op (effect_of decision.deed) }
    requires state { IsSomeState running.old }
    requires possible { IsPossible running.old decision.deed }
    requires set_room { 0 < running.old.catalog.room }
    requires room { HasLogRoom records.old.log }
    ensures made { IfOk result (λ made. IsMadeFor request.now made.entry made.answer (P.count records.old.keeper)
        (P.count records.new.keeper)) }
    ensures enters { IfOk result (λ made. (o : Opening) (h : List Entered) (s : DeskState) (mark : ℕ) →
        IsReady o h s records.old.log (P.told records.old.keeper) mark (P.count records.old.keeper) place request.now →
        IsRunning s running.old →
        IsDecided (λ job. floor_in job records.old.log.floors) s request.now decision.reply (effect_of decision.deed)
        (config_of decision.deed) → Fits s running.old decision.deed →
        HasEntered o h s made.entry running.new records.new.log (P.told records.new.keeper) mark
        (P.count records.new.keeper)) }
    ensures cause { IfOk result (λ made. made.entry.answer.reply ≡ KeeperFault → (decision.reply ≡ KeeperFault → ⊥) →
        Rose (P.count records.old.keeper) (P.count records.new.keeper)) }
    ensures unmade { OnErr result (IsUnmade running.old running.new records.old.log records.new.log
        (P.told records.old.keeper) (P.told records.new.keeper) (P.count records.old.keeper)
        (P.count records.new.keeper)) }
    ensures told { WasTold (P.told records.old.keeper) (P.told records.new.keeper) }
    ensures rises { P.count records.old.keeper ≤ P.count records.new.keeper }
{
    let Decision { reply, deed } = decision;
    let made = entry_for(place, request, &reply)?;
    let change = change_for(place, request, reply, &deed, running.alloc)?;
    if records.commit(change)? {
        running.apply(deed);
        return Ok(made);
    }
    Ok(failed(place, made))
}

// The entry of a fresh request with this reply at its place, and its answer.
fn entry_for(place: u64, request: &Request, reply: &Reply) -> Result<Prepared, AllocError>
    ensures entry { IfOk result (λ made. made.entry ≡ record {
      request = request.now;
      answer = record { place = place; first = place; reply = reply.now };
    }) }
    ensures answer { IfOk result (λ made. made.answer ≡ made.entry.answer) }
{
    Ok(fresh(place, request.copy()?, reply.copy()?, reply.copy()?))
}

// What is committed for it.
fn change_for(
    place: u64,
    request: &Request,
    reply: Reply,
    deed: &Deed,
    alloc: Global,
) -> Result<Change, AllocError>
    ensures { IfOk result (λ change. change ≡ record {
      place = place;
      request = request.now;
      reply = reply;
      effect = effect_of deed.now;
    }) }
{
    Ok(Change {
        place,
        request: request.copy()?,
        reply,
        effect: deed.effect(alloc)?,
    })
}

// The same entry where the keeper failed.
fn failed(place: u64, made: Prepared) -> Prepared
    ensures entry { result.entry ≡ record {
      request = made.entry.request;
      answer = record { place = place; first = place; reply = KeeperFault };
    } }
    ensures answer { result.answer ≡ result.entry.answer }
{
    let Prepared { entry, .. } = made;
    let Entry { request, .. } = entry;
    fresh(place, request, Reply::KeeperFault, Reply::KeeperFault)
}

// The entry of a fresh request at its place.
fn fresh(place: u64, request: Request, entered: Reply, answered: Reply) -> Prepared
    ensures { result ≡ record {
      entry = record {
        request = request;
        answer = record { place = place; first = place; reply = entered };
      };
      answer = record { place = place; first = place; reply = answered };
    } }
{
    Prepared {
        entry: Entry {
            request,
            answer: Answer {
                place,
                first: place,
                reply: entered,
            },
        },
        answer: Answer {
            place,
            first: place,
            reply: answered,
        },
    }
}
