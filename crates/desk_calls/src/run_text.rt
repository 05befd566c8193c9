// The text of a run.
ghost use Rattle.std.specs.Prelude.{◌≡◌, ◌++◌, length, IfOk, OnOk};
ghost use Rattle.sms_report.specs.VolumesTable.{table_text};
ghost use Rattle.sms_script.specs.Script.{items_of};
ghost use Rattle.desk_calls.specs.Headline.{Prints};

use sms_construct::{Answer, VolRows};
use sms_core::Core;
use sms_keeper::Keeper;
use sms_report::volumes_csv;
use sms_script::{Script, print};
use std::alloc::{AllocError, Global};

/// The text of the answers to a script, which left the core so; with `volumes` the table of volumes stands behind it.
pub fn run_text<P: Keeper>(
    alloc: Global,
    script: &Script,
    answers: &[Answer],
    volumes: bool,
    core: &Core<P>,
) -> Result<Vec<u8>, AllocError>
    requires each { length answers.now ≡ length (items_of script.now) }
    ensures { IfOk result (λ text. Prints core.now.opening volumes script.now answers.now core.now.journal text.items) }
{
    let entries = core.journal().len() as u64;
    let mut text = print(alloc, script, answers, entries)?;
    if volumes {
        let rows = core.vol_rows()?;
        push_table(alloc, &mut text, &rows)?;
        return Ok(text);
    }
    Ok(text)
}

fn push_table(alloc: Global, text: &mut Vec<u8>, rows: &VolRows) -> Result<(), AllocError>
    ensures { OnOk result (text.new.items ≡ text.old.items ++ table_text rows.now) }
{
    let table = volumes_csv(alloc, rows)?;
    text.extend_from_slice(&table)
}
