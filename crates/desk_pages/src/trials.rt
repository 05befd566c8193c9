//! What an ALLOC would come to.
ghost use Rattle.std.specs.Prelude.{◌≡◌, ◌++◌, IfOk, Some, codes};
ghost use Rattle.std.specs.Option.{option_copied};
ghost use Rattle.desk_law.specs.Classification.{classes_of};
ghost use Rattle.desk_law.specs.State.{DeskState};
ghost use Rattle.sms_simulation.specs.OutcomeText.{outcome_text};
ghost use Rattle.http_message.specs.Asked.{op_with};
ghost use Rattle.page_text.specs.AnswerBodies.{classified_body};
ghost use Rattle.sms_script.specs.TraceText.{trace_lines};
ghost use Rattle.desk_pages.specs.Shown.{showing};
ghost use Rattle.desk_pages.specs.Trials.{IsTrialPage, ShowsTrial, TellsRuns, alloc_asked, classes_page};

use crate::said::{refused, shown};
use crate::shown_desk::ShownDesk;
use acs_tree::Slate;
use deck_meaning::Config;
use desk_common::Items;
use dsn_mask::{Dsn, Name};
use http_flow::{Page, PageStatus};
use http_head::Route;
use http_message::{AskedPath, LineText, read_request};
use page_paths::Trial;
use page_text::{classified_body, explained_body};
use sms_classes::{Classified, classify};
use sms_construct::{Alloc, Op, Request, RequestNumber, Trace};
use sms_explain::{DeckSources, push_runs};
use sms_script::{TextLines, push_trace};
use sms_simulation::push_outcome;
use sms_story::runs_of;
use std::alloc::{AllocError, Global};

/// What an ALLOC of this job and name with the operands that the body gives would come to under what is active.
pub fn trial<D: ShownDesk>(
    alloc: Global,
    desk: &D,
    shows: Trial,
    job: &Name,
    dsn: &Dsn,
    body: &[u8],
) -> Result<Page, AllocError>
    ensures { IfOk result (λ page. (s : DeskState) → D.stands desk.now s →
        IsTrialPage shows s.active job.now (alloc_asked dsn.now body.now) page) }
{
    let op = asked(alloc, job, dsn, body)?;
    match &op {
        Some(Op::Alloc(allocation)) => under(alloc, desk.config(), shows, job, allocation.get()),
        _ => refused(alloc, PageStatus::Bad, b"the body isn't that of an ALLOC"),
    }
}

// What the body asks of a data set of this name.
fn asked(alloc: Global, job: &Name, dsn: &Dsn, body: &[u8]) -> Result<Option<Op>, AllocError>
    ensures { IfOk result (λ op. op ≡ op_with Route.Alloc (codes "ALLOC " ++ dsn.now) body.now) }
{
    let asked = AskedPath {
        job: *job,
        number: first_number(),
        line: line_of(alloc, dsn)?,
    };
    let Some(request) = read_request(alloc, Route::Alloc, asked, body)? else {
        return Ok(None);
    };
    let Request { op, .. } = request;
    Ok(Some(op))
}

fn first_number() -> RequestNumber {
    let Some(number) = RequestNumber::new(1) else {
        unreachable!()
    };
    number
}

// The verb and the name.
fn line_of(alloc: Global, dsn: &Dsn) -> Result<LineText, AllocError>
    ensures { IfOk result (λ line. line ≡ codes "ALLOC " ++ dsn.now) }
{
    let mut line = Vec::new(alloc);
    line.extend_from_slice(b"ALLOC ")?;
    line.extend_from_slice(dsn.bytes())?;
    Ok(LineText::from_vec(line))
}

// What the ALLOC would come to under a configuration, if there is one.
fn under(
    alloc: Global,
    active: Option<&Config>,
    shows: Trial,
    job: &Name,
    allocation: &Alloc,
) -> Result<Page, AllocError>
    ensures { IfOk result (λ page.
        IsTrialPage shows (option_copied active.entry) job.now (Some allocation.now) page) }
{
    match active {
        Some(config) => tried(alloc, config, shows, job, allocation),
        None => refused(alloc, PageStatus::Missing, b"no configuration is active"),
    }
}

// What the ALLOC would come to under a configuration.
fn tried(
    alloc: Global,
    config: &Config,
    shows: Trial,
    job: &Name,
    allocation: &Alloc,
) -> Result<Page, AllocError>
    ensures { IfOk result (ShowsTrial shows config.now job.now allocation.now) }
{
    match shows {
        Trial::Classes => classes(alloc, config, job, allocation),
        Trial::Runs => runs(alloc, config, job, allocation),
    }
}

// What the routines of a configuration do with the ALLOC.
fn runs(alloc: Global, config: &Config, job: &Name, allocation: &Alloc) -> Result<Page, AllocError>
    ensures { IfOk result (TellsRuns config.now job.now allocation.now) }
{
    let sources = DeckSources::of(alloc, config.deck())?;
    let runs = runs_of(alloc, config, job, allocation)?;
    let mut told = Vec::new(alloc);
    push_runs(&mut told, &sources, runs.as_slice())?;
    let body = explained_body(alloc, &told)?;
    Ok(shown(body))
}

// What the routines of a configuration give the ALLOC.
fn classes(
    alloc: Global,
    config: &Config,
    job: &Name,
    allocation: &Alloc,
) -> Result<Page, AllocError>
    ensures { IfOk result (λ page. page ≡ classes_page (classes_of config.now job.now allocation.now)) }
{
    let mut slate = Slate::new(alloc)?;
    let classified = classify(config, job, allocation, &mut slate);
    let trace = Trace::of(alloc, &slate)?;
    shown_classes(alloc, &classified, &trace)
}

// The page of a classification, with what the routines wrote.
fn shown_classes(alloc: Global, classified: &Classified, trace: &Trace) -> Result<Page, AllocError>
    ensures { IfOk result (λ page. page ≡ showing (classified_body
        (outcome_text classified.now.stop classified.now.values) (trace_lines trace.now))) }
{
    let outcome = outcome_of(alloc, classified)?;
    let lines = lines_of(alloc, trace)?;
    let body = classified_body(alloc, &outcome, lines.as_slice())?;
    Ok(shown(body))
}

// The lines that the routines wrote.
fn lines_of(alloc: Global, trace: &Trace) -> Result<TextLines, AllocError>
    ensures { IfOk result (λ lines. lines ≡ trace_lines trace.now) }
{
    let mut lines = Items::new(alloc);
    push_trace(alloc, &mut lines, trace)?;
    Ok(lines)
}

// How a classification ends.
fn outcome_of(alloc: Global, classified: &Classified) -> Result<Vec<u8>, AllocError>
    ensures { IfOk result (λ text. text.items ≡ outcome_text classified.now.stop classified.now.values) }
{
    let mut text = Vec::new(alloc);
    push_outcome(&mut text, classified.stop, &classified.values)?;
    Ok(text)
}
