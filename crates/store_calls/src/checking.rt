//! What an activation of a deck would be answered on a store.
ghost use Rattle.std.specs.Prelude.{◌≡◌, ◌++◌, [], IfOk, IfSome, List, None, OnOk, flat_map, true};
ghost use Rattle.sms_base.specs.Observed.{seen_streams};
ghost use Rattle.sms_construct.specs.declared.entry.Entry.{Entry as Entered};
ghost use Rattle.sms_construct.specs.declared.request.Op.TheVariants as ops;
ghost use Rattle.desk_records.specs.Tied.{IsSoundOpening};
ghost use Rattle.desk_restoring.specs.Opened.{opening_of};
ghost use Rattle.sms_core.specs.Core.{Enters};
ghost use Rattle.sms_script.specs.AnswerText.{answer_lines, ended};
ghost use Rattle.deck_changes.specs.DeckChanges.{IsDifference};
ghost use Rattle.store_calls.specs.Checked.{CheckEnds, IsChecked, IsFreeFrom, StoreCheckEnds, activation};
ghost use Rattle.store_calls.specs.Checked.{administrator, is_activated, lines_text};
ghost use Rattle.store_calls.specs.Statuses.{leaves_sink, leaves_sink_of};

use crate::loading::{FoundRows, load_store};
use crate::nowhere::Nowhere;
use crate::numbers::first_free;
use crate::status::StoreStatus;
use acs_tree::Slate;
use deck_changes::deck_changes;
use deck_meaning::Config;
use desk_calls::RunStatus;
use desk_common::{Items, MAX_INPUT, Shared};
use dsn_mask::Name;
use sms_base::{ReadEnd, Sink, Source, read_all, write_all};
use sms_construct::{Answer, DeckText, Op, Reply, Request, RequestNumber};
use sms_core::{Core, Work};
use sms_keeper::{Rows, Stored};
use sms_script::answer_lines;
use std::alloc::{AllocError, Global};

// The administrator.
const ADMINISTRATOR: &[u8] = b"SMSADMIN";

/// Writes what a fresh ACTIVATE of the deck in the source would be answered on the store to the sink, and tells whether
/// the deck would be active. Nothing of the store changes: it isn't even made ready. It hands the keeper back
/// (docs/manual/smsd.md, "Check of a deck").
pub fn store_check<S: Source, K: Sink, P: Stored>(
    alloc: Global,
    src: &mut S,
    out: &mut K,
    keeper: P,
) -> (StoreStatus, bool, P)
    ensures unwritten { leaves_sink_of result.0 ≡ true → out.new ≡ out.old }
    ensures ends { StoreCheckEnds P.Keeper P.damage result.1
        (seen_streams S.left S.reads S.read_faults K.taken K.write_faults src.old out.old)
        (seen_streams S.left S.reads S.read_faults K.taken K.write_faults src.new out.new)
        keeper result.2 result.0 }
{
    match load_store(alloc, keeper) {
        Ok((keeper, found)) => {
            let FoundRows { rows, config } = found;
            let (status, good) = check_source(alloc, src, out, rows, config);
            (StoreStatus::Ran(status), good, keeper)
        }
        Err((keeper, err)) => (StoreStatus::Unopened(err), false, keeper),
    }
}

// The same on a desk that goes on from these rows.
fn check_source<S: Source, K: Sink>(
    alloc: Global,
    src: &mut S,
    out: &mut K,
    rows: Rows,
    config: Option<Config>,
) -> (RunStatus, bool)
    requires sound { IsSoundOpening (opening_of rows config) }
    ensures unwritten { leaves_sink result.0 ≡ true → out.new ≡ out.old }
    ensures ends { CheckEnds (opening_of rows config) result.1
        (seen_streams S.left S.reads S.read_faults K.taken K.write_faults src.old out.old)
        (seen_streams S.left S.reads S.read_faults K.taken K.write_faults src.new out.new)
        result.0 }
{
    let bytes = match read_all(alloc, src, MAX_INPUT) {
        Ok(bytes) => bytes,
        Err(ReadEnd::Failed) => return (RunStatus::ReadFault, false),
        Err(ReadEnd::TooLong) => return (RunStatus::TooLong, false),
        Err(ReadEnd::NoMemory) => return (RunStatus::NoMemory, false),
    };
    let Ok((text, good)) = check_text(alloc, rows, config, bytes) else {
        return (RunStatus::NoMemory, false);
    };
    match write_all(out, &text) {
        Ok(()) => (RunStatus::Done, good),
        Err(_) => (RunStatus::WriteFault, good),
    }
}

// The text of the answer and of what the deck changes, and whether it would be active.
fn check_text(
    alloc: Global,
    rows: Rows,
    config: Option<Config>,
    bytes: Vec<u8>,
) -> Result<(Vec<u8>, bool), AllocError>
    requires sound { IsSoundOpening (opening_of rows config) }
    ensures { IfOk result (λ found. IsChecked (opening_of rows config) found.1 bytes.items found.0.items) }
{
    let (request, changes) = asked(alloc, &rows, &config, bytes)?;
    let answer = answer_alone(alloc, rows, config, &request)?;
    let text = told_text(alloc, &answer, &changes)?;
    Ok((text, is_activated(&answer.reply)))
}

// The administrator's request to activate a deck of these bytes, under a number that is free in the rows, and the text
// of what the deck changes.
fn asked(
    alloc: Global,
    rows: &Rows,
    config: &Option<Config>,
    bytes: Vec<u8>,
) -> Result<(Request, Vec<u8>), AllocError>
    ensures request { IfOk result (λ found. found.0 ≡ activation found.0.number bytes.items) }
    ensures free { IfOk result (λ found. IsFreeFrom administrator rows.now found.0.number) }
    ensures changes { IfOk result (λ found. IsDifference config.now bytes.items found.1.items) }
{
    let deck = Shared::new(alloc, Items::from_vec(bytes))?;
    let changes = deck_changes(alloc, config, &deck)?;
    Ok((activation(rows, deck)?, changes))
}

// The administrator's request to activate this deck, under a number that is free in the rows.
fn activation(rows: &Rows, deck: DeckText) -> Result<Request, AllocError>
    ensures job { IfOk result (λ request. request.job ≡ administrator) }
    ensures op { IfOk result (λ request. request.op ≡ ops.Activate deck) }
    ensures free { IfOk result (λ request. IsFreeFrom administrator rows.now request.number) }
{
    let Some(job) = Name::new(ADMINISTRATOR) else {
        return Err(AllocError);
    };
    let Some(number) = free_number(&job, rows) else {
        return Err(AllocError);
    };
    Ok(Request {
        job,
        number,
        op: Op::Activate(deck),
    })
}

// A number that is free in the rows, as that of a request.
fn free_number(job: &Name, rows: &Rows) -> Option<RequestNumber>
    ensures { IfSome result (IsFreeFrom job.now rows.now) }
{
    RequestNumber::new(first_free(job, rows)?)
}

// What the request is answered on a desk that goes on from the rows, and that nobody keeps.
fn answer_alone(
    alloc: Global,
    rows: Rows,
    config: Option<Config>,
    request: &Request,
) -> Result<Answer, AllocError>
    requires sound { IsSoundOpening (opening_of rows config) }
    ensures { IfOk result (λ answer. (journal : List Entered) ×
        Enters (opening_of rows config) [] journal None None 0 0 request.now answer) }
{
    let mut slate = Slate::new(alloc)?;
    match Core::resume(alloc, Nowhere, rows, config) {
        Ok(core) => Ok(answer_by(core, request, &mut slate)),
        Err((_, error)) => Err(error),
    }
}

// What the request is answered by this desk, which has no entries.
fn answer_by(mut core: Core<Nowhere>, request: &Request, slate: &mut Slate) -> Answer
    requires { core.journal ≡ [] }
    ensures { (journal : List Entered) × Enters core.opening [] journal None None 0 0 request.now result }
{
    core.step(request, Work::Nothing, slate)
}

fn is_activated(reply: &Reply) -> bool
    ensures { result ≡ is_activated reply.now }
{
    matches!(reply, Reply::Activated { .. })
}

// The lines of the answer, and the text of what the deck changes behind them.
fn told_text(alloc: Global, answer: &Answer, changes: &[u8]) -> Result<Vec<u8>, AllocError>
    ensures { IfOk result (λ text. text.items ≡ lines_text answer.now ++ changes.now) }
{
    let lines = answer_lines(alloc, answer)?;
    let mut text = Vec::new(alloc);
    push_lines(&mut text, lines.as_slice())?;
    text.extend_from_slice(changes)?;
    Ok(text)
}

fn push_lines(text: &mut Vec<u8>, lines: &[Items<u8>]) -> Result<(), AllocError>
    ensures { OnOk result (text.new.items ≡ text.old.items ++ flat_map ended lines.now) }
{
    for line in lines {
        push_ended(text, line)?;
    }
    Ok(())
}

fn push_ended(text: &mut Vec<u8>, line: &Items<u8>) -> Result<(), AllocError>
    ensures { OnOk result (text.new.items ≡ text.old.items ++ ended line.now) }
{
    text.extend_from_slice(line.as_slice())?;
    text.push(b'\n')?;
    Ok(())
}
