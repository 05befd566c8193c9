//! The records of findings.
ghost use Rattle.std.specs.Prelude.{◌≡◌, ◌++◌, IfOk, OnOk, flat_map};
ghost use Rattle.csv.specs.Writing.{default_writer, row_text};
ghost use Rattle.lint_records.specs.FindingRecords.{finding_header, finding_record, front_in, record_in, records_text};
ghost use Rattle.lint_records.specs.Told.{place_at, told, told_at, told_in, told_on, told_since};

use crate::finding_record::push_record;
use acs_lint::Finding;
use acs_places::Place;
use acs_telling::Source;
use acs_tree::Kind;
use flat_records::{RecordForm, record_text};
use sms_construct::key_of;
use sms_explain::DeckSources;
use sms_lint::DeckFinding;
use std::alloc::{AllocError, Global};

const HEADER: [&[u8]; 7] = [
    b"in",
    b"name",
    b"line",
    b"column",
    b"finding",
    b"since_line",
    b"since_column",
];

/// The findings on a deck whose routines have these texts, a record each in this form (docs/manual/tool.md, "Linting a
/// deck").
pub fn finding_records(
    alloc: Global,
    form: RecordForm,
    sources: &DeckSources,
    findings: &[DeckFinding],
) -> Result<Vec<u8>, AllocError>
    ensures { IfOk result (λ text. text.items ≡ records_text form sources.now findings.now) }
{
    let mut text = front_text(alloc, form)?;
    push_findings(alloc, &mut text, form, sources, findings)?;
    Ok(text)
}

// What stands before the records.
fn front_text(alloc: Global, form: RecordForm) -> Result<Vec<u8>, AllocError>
    ensures { IfOk result (λ text. text.items ≡ front_in form) }
{
    match form {
        RecordForm::Csv => header_text(alloc),
        RecordForm::Json => Ok(Vec::new(alloc)),
    }
}

fn header_text(alloc: Global) -> Result<Vec<u8>, AllocError>
    ensures { IfOk result (λ text. text.items ≡ row_text default_writer finding_header) }
{
    record_text(alloc, &HEADER)
}

fn push_findings(
    alloc: Global,
    text: &mut Vec<u8>,
    form: RecordForm,
    sources: &DeckSources,
    findings: &[DeckFinding],
) -> Result<(), AllocError>
    ensures { OnOk result (text.new.items ≡ text.old.items ++
        flat_map (finding_record form sources.now) findings.now) }
{
    for finding in findings {
        push_finding(alloc, text, form, sources, finding)?;
    }
    Ok(())
}

fn push_finding(
    alloc: Global,
    text: &mut Vec<u8>,
    form: RecordForm,
    sources: &DeckSources,
    finding: &DeckFinding,
) -> Result<(), AllocError>
    ensures { OnOk result (text.new.items ≡ text.old.items ++ record_in form (told sources.now finding.now)) }
{
    match finding {
        DeckFinding::InRoutine { kind, finding } => {
            let source = sources.of_kind(*kind);
            push_in_routine(alloc, text, form, kind.name(), source, finding)
        }
        DeckFinding::NeverSet { kind, name } => {
            push_construct(alloc, text, form, *kind, name.bytes(), b"NEVER SET")
        }
        DeckFinding::NotEnabled(name) => {
            let what = b"HAS NO ENABLED VOLUME";
            push_construct(alloc, text, form, Kind::StorGrp, name.bytes(), what)
        }
        DeckFinding::NeverExpires(name) => {
            let what = b"NEVER EXPIRES WITHOUT RETPD";
            push_construct(alloc, text, form, Kind::MgmtClas, name.bytes(), what)
        }
    }
}

// What is found on a construct.
fn push_construct(
    alloc: Global,
    text: &mut Vec<u8>,
    form: RecordForm,
    kind: Kind,
    name: &[u8],
    what: &[u8],
) -> Result<(), AllocError>
    ensures { OnOk result (text.new.items ≡ text.old.items ++
        record_in form (told_on kind name.now what.now)) }
{
    let key = key_of(kind).as_bytes();
    push_record(alloc, text, form, key, name, None, what, None)
}

fn push_in_routine(
    alloc: Global,
    text: &mut Vec<u8>,
    form: RecordForm,
    routine: &[u8],
    source: &Source,
    finding: &Finding,
) -> Result<(), AllocError>
    ensures { OnOk result (text.new.items ≡ text.old.items ++
        record_in form (told_in routine.now source.now finding.now)) }
{
    match finding {
        Finding::Covered { arm, since } => {
            let what = b"NEVER TAKEN";
            push_since(alloc, text, form, routine, source, *arm, what, *since)
        }
        Finding::Behind { statement, since } => {
            let what = b"NEVER RUN";
            push_since(alloc, text, form, routine, source, *statement, what, *since)
        }
        Finding::Spare { entry, since } => {
            let what = b"NOT NEEDED";
            push_since(alloc, text, form, routine, source, *entry, what, *since)
        }
        Finding::Quoted { literal } => {
            let what = b"COMPARED AS IT STANDS";
            push_token(alloc, text, form, routine, source, *literal, what)
        }
        Finding::Unused { list } => {
            let what = b"NEVER USED";
            push_token(alloc, text, form, routine, source, *list, what)
        }
    }
}

// What is found at a token.
fn push_token(
    alloc: Global,
    text: &mut Vec<u8>,
    form: RecordForm,
    routine: &[u8],
    source: &Source,
    at: u32,
    what: &[u8],
) -> Result<(), AllocError>
    ensures { OnOk result (text.new.items ≡ text.old.items ++
        record_in form (told_at routine.now source.now at what.now)) }
{
    let place = place_of(source, at);
    let word = source.word_at(at as usize);
    push_record(alloc, text, form, routine, word, Some(place), what, None)
}

// What is found at a token, and the place that makes it so.
fn push_since(
    alloc: Global,
    text: &mut Vec<u8>,
    form: RecordForm,
    routine: &[u8],
    source: &Source,
    at: u32,
    what: &[u8],
    since: u32,
) -> Result<(), AllocError>
    ensures { OnOk result (text.new.items ≡ text.old.items ++
        record_in form (told_since routine.now source.now at what.now since)) }
{
    let place = place_of(source, at);
    let word = source.word_at(at as usize);
    let since = place_of(source, since);
    push_record(
        alloc,
        text,
        form,
        routine,
        word,
        Some(place),
        what,
        Some(since),
    )
}

fn place_of(source: &Source, at: u32) -> Place
    ensures { result ≡ place_at source.now at }
{
    source.spot_at(at as usize).place
}
