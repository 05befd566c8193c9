//! Runs as text.
ghost use Rattle.std.specs.Prelude.{◌≡◌, ◌++◌, OnOk, flat_map};
ghost use Rattle.sms_explain.specs.RunText.{begin_text, end_text, ending_text, groups_text, run_text, values_text};

use crate::deck_sources::DeckSources;
use acs_telling::push_events;
use acs_tree::{Ending, Values};
use desk_common::push_number;
use dsn_mask::Name;
use sms_script::{push_word_and_blank, value_bytes};
use sms_story::Run;
use std::alloc::AllocError;

/// Puts what happened in these runs behind a text (docs/manual/tool.md, "Explaining a script"), or only a front of it
/// where memory is wanting.
pub fn push_runs(text: &mut Vec<u8>, sources: &DeckSources, runs: &[Run]) -> Result<(), AllocError>
    ensures { OnOk result (text.new.items ≡ text.old.items ++ flat_map (run_text sources.now) runs.now) }
{
    for run in runs {
        push_run(text, sources, run)?;
    }
    Ok(())
}

fn push_run(text: &mut Vec<u8>, sources: &DeckSources, run: &Run) -> Result<(), AllocError>
    ensures { OnOk result (text.new.items ≡ text.old.items ++ run_text sources.now run.now) }
{
    push_begin(text, run)?;
    push_events(text, sources.of_kind(run.kind), run.events.as_slice())?;
    push_end(text, run)
}

fn push_begin(text: &mut Vec<u8>, run: &Run) -> Result<(), AllocError>
    ensures { OnOk result (text.new.items ≡ text.old.items ++ begin_text run.now) }
{
    push_word_and_blank(text, run.kind.name())?;
    push_word_and_blank(text, b"BEGIN")?;
    push_values(text, &run.begins)?;
    text.extend_from_slice(b"\n")
}

fn push_end(text: &mut Vec<u8>, run: &Run) -> Result<(), AllocError>
    ensures { OnOk result (text.new.items ≡ text.old.items ++ end_text run.now) }
{
    push_word_and_blank(text, run.kind.name())?;
    push_ending(text, run.ending)?;
    text.extend_from_slice(b" ")?;
    push_values(text, &run.ends)?;
    text.extend_from_slice(b"\n")
}

fn push_ending(text: &mut Vec<u8>, ending: Ending) -> Result<(), AllocError>
    ensures { OnOk result (text.new.items ≡ text.old.items ++ ending_text ending) }
{
    match ending {
        Ending::Falls => text.extend_from_slice(b"END"),
        Ending::Exit(code) => {
            push_word_and_blank(text, b"EXIT")?;
            push_number(text, u64::from(code))
        }
    }
}

/// Puts what the variables hold behind a text: the three classes, and the storage groups behind them.
pub fn push_values(text: &mut Vec<u8>, values: &Values) -> Result<(), AllocError>
    ensures { OnOk result (text.new.items ≡ text.old.items ++ values_text values.now) }
{
    push_word_and_blank(text, value_bytes(&values.dataclas))?;
    push_word_and_blank(text, value_bytes(&values.storclas))?;
    text.extend_from_slice(value_bytes(&values.mgmtclas))?;
    push_groups(text, values.groups.as_slice())
}

// The storage groups, with a blank before each.
fn push_groups(text: &mut Vec<u8>, groups: &[Name]) -> Result<(), AllocError>
    ensures { OnOk result (text.new.items ≡ text.old.items ++ groups_text groups.now) }
{
    for group in groups {
        text.extend_from_slice(b" ")?;
        text.extend_from_slice(group.bytes())?;
    }
    Ok(())
}
