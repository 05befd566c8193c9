//! What WRITE writes.
ghost use Rattle.std.specs.Prelude.{◌≡◌, ◌≤◌, ◌++◌, ◌∷◌, [], codes, decimal, length, take};
ghost use Rattle.desk_common.specs.Bytes.{comma};
ghost use Rattle.desk_common.specs.Limits.{most_literal_bytes};
ghost use Rattle.acs_code.specs.Machine.{part_text, parts_line};
ghost use Rattle.acs_tree.specs.Writing.{listed, printed};
ghost use Rattle.acs_run.specs.Inner.Lines.{after_commas};
ghost use Rattle.acs_run.specs.Inner.Seen.{seen};

use crate::draft::Draft;
use crate::value::Value;
use crate::values::named_value;
use acs_code::Part;
use acs_tree::{Seen, Values};
use dsn_mask::{Lit, Name, Short, Volser};
use itoa::Buffer;

/// The parts with nothing between them, cut to a line.
pub fn line(parts: &[Part], input: &Seen<'_>, values: &Values) -> Lit
    ensures { result ≡ parts_line parts.now input.now values.now }
{
    let mut draft = Draft::new();
    for part in parts {
        put_part(&mut draft, part, input, values);
    }
    draft.text()
}

fn put_part(draft: &mut Draft, part: &Part, input: &Seen<'_>, values: &Values)
    requires { length draft.old ≤ most_literal_bytes }
    ensures { draft.new ≡ take most_literal_bytes (draft.old ++ part_text part.now input.now values.now) }
{
    match part {
        Part::Literal(text) => draft.put(text.bytes()),
        Part::Var(slot) => put_value(draft, &named_value(slot, input, values), input, values),
    }
}

fn put_value(draft: &mut Draft, value: &Value, input: &Seen<'_>, values: &Values)
    requires { length draft.old ≤ most_literal_bytes }
    ensures { draft.new ≡ take most_literal_bytes (draft.old ++ printed (seen input.now values.now value.now)) }
{
    match value {
        Value::Text(text) => put_text(draft, text),
        Value::Number(number) => put_number(draft, *number),
        Value::Size(kilobytes) => put_size(draft, *kilobytes),
        Value::AnyVolume | Value::AllVolumes => put_volumes(draft, input.volumes()),
        Value::StorageGroups => put_groups(draft, values.groups.as_slice()),
    }
}

#[tactic(auto, using(crate::proofs::LineLemmas::short_is_literal))]
fn put_text(draft: &mut Draft, text: &Short)
    ensures { draft.new ≡ take most_literal_bytes (draft.old ++ text.now) }
{
    draft.put(text.bytes());
}

fn put_number(draft: &mut Draft, number: u64)
    ensures { draft.new ≡ take most_literal_bytes (draft.old ++ decimal number) }
{
    let mut buffer = Buffer::new();
    draft.put(buffer.format(number).as_bytes());
}

fn put_size(draft: &mut Draft, kilobytes: u64)
    ensures { draft.new ≡ take most_literal_bytes (draft.old ++ (decimal kilobytes ++ codes "KB")) }
{
    put_number(draft, kilobytes);
    draft.put(b"KB");
}

fn put_volumes(draft: &mut Draft, volumes: &[Volser])
    requires { length draft.old ≤ most_literal_bytes }
    ensures { draft.new ≡ take most_literal_bytes (draft.old ++ listed volumes.now) }
{
    if let Some((first, rest)) = volumes.split_first() {
        put_volume(draft, first);
        put_more_volumes(draft, rest);
    }
}

fn put_more_volumes(draft: &mut Draft, volumes: &[Volser])
    requires { length draft.old ≤ most_literal_bytes }
    ensures { draft.new ≡ take most_literal_bytes (draft.old ++ after_commas volumes.now) }
{
    for volume in volumes {
        put_comma(draft);
        put_volume(draft, volume);
    }
}

#[tactic(auto, using(crate::proofs::LineLemmas::volser_is_literal))]
fn put_volume(draft: &mut Draft, volume: &Volser)
    ensures { draft.new ≡ take most_literal_bytes (draft.old ++ volume.now) }
{
    draft.put(volume.bytes());
}

fn put_comma(draft: &mut Draft)
    ensures { draft.new ≡ take most_literal_bytes (draft.old ++ comma ∷ []) }
{
    draft.put(b",");
}

fn put_groups(draft: &mut Draft, groups: &[Name])
    requires { length draft.old ≤ most_literal_bytes }
    ensures { draft.new ≡ take most_literal_bytes (draft.old ++ listed groups.now) }
{
    if let Some((first, rest)) = groups.split_first() {
        put_group(draft, first);
        put_more_groups(draft, rest);
    }
}

fn put_more_groups(draft: &mut Draft, groups: &[Name])
    requires { length draft.old ≤ most_literal_bytes }
    ensures { draft.new ≡ take most_literal_bytes (draft.old ++ after_commas groups.now) }
{
    for group in groups {
        put_comma(draft);
        put_group(draft, group);
    }
}

#[tactic(auto, using(crate::proofs::LineLemmas::name_is_literal))]
fn put_group(draft: &mut Draft, group: &Name)
    ensures { draft.new ≡ take most_literal_bytes (draft.old ++ group.now) }
{
    draft.put(group.bytes());
}
