//! The top call for a comparison of texts of their own.
ghost use Rattle.std.specs.Prelude.{◌≡◌, ◌<◌, ◌+◌, ◌^◌, length};
ghost use Rattle.acs_test.specs.Layout.{parts_seen};
ghost use Rattle.acs_test.specs.Reading.{Gives, Refuses};
ghost use Rattle.tool_calls.specs.CasesText.{IsComparison};
ghost use Rattle.tool_calls.specs.PartsEnds.{EndsTold, sink_seen};

use crate::comparing::compared_parts;
use crate::part_names::PartNames;
use crate::status::ToolStatus;
use acs_test::InputParts;
use sms_base::{Sink, write_all};
use std::alloc::Global;
use tool_words::Comparison;

/// Compares two decks under a table of cases, and writes the listing or the first fault to the sink
/// (docs/manual/tool.md, "Comparing two decks"). What a fault means is noted, with the name of the part that has it.
pub fn compare_parts<K: Sink>(
    alloc: Global,
    comparison: Comparison,
    parts: InputParts<'_>,
    names: PartNames<'_>,
    out: &mut K,
    note: &mut String,
) -> ToolStatus
    requires { length parts.table.now + 2 < 2 ^ 32 }
    ensures { EndsTold
        (IsComparison (Gives (parts_seen parts.entry)) (Refuses (parts_seen parts.entry)) comparison)
        (sink_seen K.taken K.write_faults out.old) (sink_seen K.taken K.write_faults out.new) result }
{
    let (status, text) = match compared_parts(alloc, comparison, parts, names, note) {
        Ok(found) => found,
        Err(_) => return ToolStatus::NoMemory,
    };
    match write_all(out, text.as_slice()) {
        Ok(()) => status,
        Err(_) => ToolStatus::WriteFault,
    }
}
