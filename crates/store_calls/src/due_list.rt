//! What is due on a day of the data sets of a store.
ghost use Rattle.std.specs.Prelude.{◌≡◌, ◌++◌, IfOk, OnOk, flat_map, true};
ghost use Rattle.desk_restoring.specs.Opened.{opening_of};
ghost use Rattle.store_calls.specs.StoreDue.{StoreDueEnds, due_line, due_text, named_line, wanted_line};
ghost use Rattle.store_calls.specs.StoreLists.{seen_sink};
ghost use Rattle.store_calls.specs.Statuses.{leaves_sink_of};

use crate::loading::{FoundRows, load_store};
use crate::status::StoreStatus;
use crate::writing::write_made;
use deck_meaning::Config;
use desk_common::Shared;
use dsn_mask::Dsn;
use sms_base::Sink;
use sms_construct::DataSet;
use sms_keeper::Stored;
use sms_manage::{Due, due};
use sms_script::push_word_and_blank;
use std::alloc::{AllocError, Global};

/// Writes what space management has to do on a day on the store to the sink, a line for each data set of which
/// something is due. Nothing of the store changes: it isn't even made ready. It hands the keeper back
/// (docs/manual/smsd.md, "Space management").
pub fn store_due<K: Sink, P: Stored>(
    alloc: Global,
    day: u32,
    out: &mut K,
    keeper: P,
) -> (StoreStatus, P)
    ensures unwritten { leaves_sink_of result.0 ≡ true → out.new ≡ out.old }
    ensures ends { StoreDueEnds P.Keeper P.damage day (seen_sink K.taken K.write_faults out.old)
        (seen_sink K.taken K.write_faults out.new) keeper result.1 result.0 }
{
    match load_store(alloc, keeper) {
        Ok((keeper, found)) => {
            let text = due_text(alloc, day, &found);
            (StoreStatus::Ran(write_made(out, text)), keeper)
        }
        Err((keeper, err)) => (StoreStatus::Unopened(err), keeper),
    }
}

// The lines of these rows, under the configuration of their last deck.
fn due_text(alloc: Global, day: u32, found: &FoundRows) -> Result<Vec<u8>, AllocError>
    ensures { IfOk result (λ text. text.items ≡ due_text day (opening_of found.now.rows found.now.config)) }
{
    match &found.config {
        Some(config) => due_under(alloc, config, day, found.rows.sets.as_slice()),
        None => Ok(Vec::new(alloc)),
    }
}

// The lines of these data sets under a configuration.
fn due_under(
    alloc: Global,
    config: &Config,
    day: u32,
    sets: &[Shared<DataSet>],
) -> Result<Vec<u8>, AllocError>
    ensures { IfOk result (λ text. text.items ≡ flat_map (due_line config.now day) sets.entry.now) }
{
    let mut text = Vec::new(alloc);
    push_due(&mut text, config, day, sets)?;
    Ok(text)
}

fn push_due(
    text: &mut Vec<u8>,
    config: &Config,
    day: u32,
    sets: &[Shared<DataSet>],
) -> Result<(), AllocError>
    ensures { OnOk result (text.new.items ≡ text.old.items ++ flat_map (due_line config.now day) sets.entry.now) }
{
    let mut rest = sets;
    while let [shared, others @ ..] = rest {
        let set = shared.get();
        push_wanted(text, &set.dsn, due(set, config, day))?;
        rest = others;
    }
    Ok(())
}

// The line of the data set of this name, of which this is due.
fn push_wanted(text: &mut Vec<u8>, dsn: &Dsn, wanted: Due) -> Result<(), AllocError>
    ensures { OnOk result (text.new.items ≡ text.old.items ++ wanted_line dsn.now wanted) }
{
    match wanted {
        Due::Nothing => Ok(()),
        Due::Delete => push_named(text, dsn, b"DELETE"),
        Due::Release => push_named(text, dsn, b"RELEASE"),
    }
}

fn push_named(text: &mut Vec<u8>, dsn: &Dsn, word: &[u8]) -> Result<(), AllocError>
    ensures { OnOk result (text.new.items ≡ text.old.items ++ named_line dsn.now word.now) }
{
    text.extend_from_slice(b"DUE ")?;
    push_word_and_blank(text, dsn.bytes())?;
    text.extend_from_slice(word)?;
    text.push(b'\n')?;
    Ok(())
}
