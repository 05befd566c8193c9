// Findings as text.
ghost use Rattle.std.specs.Prelude.{◌≡◌, ◌++◌, IfOk, OnOk, flat_map};
ghost use Rattle.acs_telling.specs.Telling.{place_text};
ghost use Rattle.sms_lint.specs.LintText.{construct_text, finding_line, findings_text, found_text, in_routine_text};
ghost use Rattle.sms_lint.specs.LintText.{since_text, token_text, what_text};

use crate::deck_finding::DeckFinding;
use acs_lint::Finding;
use acs_places::Place;
use acs_telling::Source;
use acs_tree::Kind;
use desk_common::{Items, push_number};
use dsn_mask::Name;
use sms_construct::key_of;
use sms_explain::DeckSources;
use std::alloc::{AllocError, Global};

/// The findings on a deck whose routines have these texts, a line each, and how many there are.
pub fn text_of(
    alloc: Global,
    sources: &DeckSources,
    findings: &[DeckFinding],
) -> Result<Items<u8>, AllocError>
    ensures { IfOk result (λ text. text ≡ findings_text sources.now findings.now) }
{
    let mut text = Vec::new(alloc);
    push_lines(&mut text, sources, findings)?;
    text.extend_from_slice(b"FINDINGS ")?;
    push_number(&mut text, findings.len() as u64)?;
    text.extend_from_slice(b"\n")?;
    Ok(Items::from_vec(text))
}

fn push_lines(
    text: &mut Vec<u8>,
    sources: &DeckSources,
    findings: &[DeckFinding],
) -> Result<(), AllocError>
    ensures { OnOk result (text.new.items ≡ text.old.items ++ flat_map (finding_line sources.now) findings.now) }
{
    for finding in findings {
        push_finding(text, sources, finding)?;
    }
    Ok(())
}

fn push_finding(
    text: &mut Vec<u8>,
    sources: &DeckSources,
    finding: &DeckFinding,
) -> Result<(), AllocError>
    ensures { OnOk result (text.new.items ≡ text.old.items ++ finding_line sources.now finding.now) }
{
    push_found(text, sources, finding)?;
    text.extend_from_slice(b"\n")
}

fn push_found(
    text: &mut Vec<u8>,
    sources: &DeckSources,
    finding: &DeckFinding,
) -> Result<(), AllocError>
    ensures { OnOk result (text.new.items ≡ text.old.items ++ found_text sources.now finding.now) }
{
    match finding {
        DeckFinding::InRoutine { kind, finding } => {
            text.extend_from_slice(kind.name())?;
            text.extend_from_slice(b" ")?;
            push_in_routine(text, sources.of_kind(*kind), finding)
        }
        DeckFinding::NeverSet { kind, name } => push_construct(text, *kind, name, b" NEVER SET"),
        DeckFinding::NotEnabled(name) => {
            push_construct(text, Kind::StorGrp, name, b" HAS NO ENABLED VOLUME")
        }
        DeckFinding::NeverExpires(name) => {
            push_construct(text, Kind::MgmtClas, name, b" NEVER EXPIRES WITHOUT RETPD")
        }
    }
}

// The path of a construct, and what is found on it.
fn push_construct(
    text: &mut Vec<u8>,
    kind: Kind,
    name: &Name,
    what: &[u8],
) -> Result<(), AllocError>
    ensures { OnOk result (text.new.items ≡ text.old.items ++ construct_text kind name.now what.now) }
{
    text.extend_from_slice(key_of(kind).as_bytes())?;
    text.extend_from_slice(b".")?;
    text.extend_from_slice(name.bytes())?;
    text.extend_from_slice(what)
}

fn push_in_routine(text: &mut Vec<u8>, source: &Source, finding: &Finding) -> Result<(), AllocError>
    ensures { OnOk result (text.new.items ≡ text.old.items ++ in_routine_text source.now finding.now) }
{
    match finding {
        Finding::Covered { arm, since } => {
            push_since(
                text,
                source,
                *arm,
                b" NEVER TAKEN",
                *since,
                b" HOLDS WHERE IT DOES",
            )
        }
        Finding::Behind { statement, since } => {
            push_since(text, source, *statement, b" NEVER RUN", *since, b" EXITS")
        }
        Finding::Spare { entry, since } => {
            push_since(text, source, *entry, b" NOT NEEDED", *since, b" COVERS IT")
        }
        Finding::Quoted { literal } => {
            push_what(text, source, *literal, b" COMPARED AS IT STANDS")
        }
        Finding::Unused { list } => push_what(text, source, *list, b" NEVER USED"),
    }
}

// What is found at a token.
fn push_what(text: &mut Vec<u8>, source: &Source, at: u32, what: &[u8]) -> Result<(), AllocError>
    ensures { OnOk result (text.new.items ≡ text.old.items ++ what_text source.now at what.now) }
{
    push_token(text, source, at)?;
    text.extend_from_slice(what)
}

// What is found at a token, and the place that makes it so.
fn push_since(
    text: &mut Vec<u8>,
    source: &Source,
    at: u32,
    what: &[u8],
    since: u32,
    why: &[u8],
) -> Result<(), AllocError>
    ensures { OnOk result (text.new.items ≡ text.old.items ++ since_text source.now at what.now since why.now) }
{
    push_token(text, source, at)?;
    text.extend_from_slice(what)?;
    text.extend_from_slice(b", SINCE ")?;
    push_place(text, source.spot_at(since as usize).place)?;
    text.extend_from_slice(why)
}

fn push_token(text: &mut Vec<u8>, source: &Source, at: u32) -> Result<(), AllocError>
    ensures { OnOk result (text.new.items ≡ text.old.items ++ token_text source.now at) }
{
    push_place(text, source.spot_at(at as usize).place)?;
    text.extend_from_slice(b" ")?;
    text.extend_from_slice(source.word_at(at as usize))
}

fn push_place(text: &mut Vec<u8>, place: Place) -> Result<(), AllocError>
    ensures { OnOk result (text.new.items ≡ text.old.items ++ place_text place) }
{
    push_number(text, place.line)?;
    text.extend_from_slice(b":")?;
    push_number(text, place.column)
}
