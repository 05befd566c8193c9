//! From the bytes of a deck to the text of what is found in it.
ghost use Rattle.std.specs.Prelude.{◌≡◌, IfOk};
ghost use Rattle.lint_records.specs.FindingRecords.{records_text};
ghost use Rattle.tool_calls.specs.ToolText.{IsAnswer, lint_status, lint_text};
ghost use Rattle.tool_words.specs.declared.task.Task.TheVariants.{Lint};

use crate::deck_answers::refused;
use crate::noting::note_deck;
use crate::status::ToolStatus;
use desk_common::{Items, Shared};
use flat_records::RecordForm;
use lint_records::finding_records;
use sms_lint::{Lint as Found, Linted, lint};
use std::alloc::{AllocError, Global};
use tool_words::Format;

/// What is found in a deck. What its fault means is noted.
#[tactic(auto, using(crate::proofs::AnswerLemmas::linted_told, crate::proofs::AnswerLemmas::unlinted_told))]
pub fn linted(
    alloc: Global,
    fail: bool,
    format: Format,
    bytes: Vec<u8>,
    note: &mut String,
) -> Result<(ToolStatus, Items<u8>), AllocError>
    ensures { IfOk result (λ found. IsAnswer bytes.items (Lint fail format) found.0 found.1) }
{
    let deck = Shared::new(alloc, Items::from_vec(bytes))?;
    match lint(alloc, &deck)? {
        Linted::Shown(found) => {
            let status = lint_status(fail, found.findings.len());
            let text = lint_text(alloc, format, found)?;
            Ok((status, text))
        }
        Linted::Refused(fault) => {
            note_deck(alloc, note, deck.get().as_slice(), &fault);
            refused(alloc, &fault)
        }
    }
}

// What is found in a deck, in a form.
fn lint_text(alloc: Global, format: Format, found: Found) -> Result<Items<u8>, AllocError>
    ensures { IfOk result (λ text. text ≡ lint_text format found) }
{
    match format {
        Format::Text => Ok(found.text),
        Format::Csv => records_of(alloc, RecordForm::Csv, &found),
        Format::Json => records_of(alloc, RecordForm::Json, &found),
    }
}

fn records_of(alloc: Global, form: RecordForm, found: &Found) -> Result<Items<u8>, AllocError>
    ensures { IfOk result (λ text. text ≡ records_text form found.now.sources found.now.findings) }
{
    let text = finding_records(alloc, form, &found.sources, found.findings.as_slice())?;
    Ok(Items::from_vec(text))
}

// The status of a deck in which so much is found.
fn lint_status(fail: bool, findings: usize) -> ToolStatus
    ensures { result ≡ lint_status fail findings }
{
    if fail && 0 < findings {
        ToolStatus::FaultFound
    } else {
        ToolStatus::Done
    }
}
