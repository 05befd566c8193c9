// Words and operands behind a text.
ghost use Rattle.std.specs.Prelude.{◌≡◌, ◌<◌, ◌^◌, ◌++◌, OnOk};
ghost use Rattle.acs_telling.specs.Sources.{word_at};
ghost use Rattle.acs_telling.specs.Telling.{compare_word, front_at, index_at, operand_at, place_text, quoted};
ghost use Rattle.acs_telling.specs.Telling.{truth_word};

use crate::source::Source;
use acs_places::Place;
use acs_tree::Compare;
use desk_common::push_number;
use std::alloc::AllocError;

/// The word of a comparison.
pub fn compare_word(op: Compare) -> &'static [u8]
    ensures { result.now ≡ compare_word op }
{
    match op {
        Compare::Eq => b"EQ",
        Compare::Ne => b"NE",
        Compare::Gt => b"GT",
        Compare::Lt => b"LT",
        Compare::Ge => b"GE",
        Compare::Le => b"LE",
        Compare::Ng => b"NG",
        Compare::Nl => b"NL",
    }
}

/// The word of what held or didn't.
pub fn truth_word(holds: bool) -> &'static [u8]
    ensures { result.now ≡ truth_word holds }
{
    if holds { b"TRUE" } else { b"FALSE" }
}

/// Puts a text between quotes behind a text.
pub fn push_quoted(text: &mut Vec<u8>, bytes: &[u8]) -> Result<(), AllocError>
    ensures { OnOk result (text.new.items ≡ text.old.items ++ quoted bytes.now) }
{
    text.extend_from_slice(b"'")?;
    text.extend_from_slice(bytes)?;
    text.extend_from_slice(b"'")
}

/// Puts the front of a line about the token with this number behind a text.
pub fn push_front(text: &mut Vec<u8>, source: &Source, number: u32) -> Result<(), AllocError>
    ensures { OnOk result (text.new.items ≡ text.old.items ++ front_at source.now number) }
{
    text.extend_from_slice(b"  ")?;
    push_place(text, source.spot_at(number as usize).place)?;
    text.extend_from_slice(b" ")
}

fn push_place(text: &mut Vec<u8>, place: Place) -> Result<(), AllocError>
    ensures { OnOk result (text.new.items ≡ text.old.items ++ place_text place) }
{
    push_number(text, place.line)?;
    text.extend_from_slice(b":")?;
    push_number(text, place.column)
}

/// Puts the bytes of the token with this number behind a text.
pub fn push_word(text: &mut Vec<u8>, source: &Source, number: usize) -> Result<(), AllocError>
    ensures { OnOk result (text.new.items ≡ text.old.items ++ word_at source.now number) }
{
    text.extend_from_slice(source.word_at(number))
}

/// Puts the operand that begins with the token of this number behind a text.
pub fn push_operand(text: &mut Vec<u8>, source: &Source, number: u32) -> Result<(), AllocError>
    ensures { OnOk result (text.new.items ≡ text.old.items ++ operand_at source.now number) }
{
    push_word(text, source, number as usize)?;
    push_index(text, source, number as usize + 1)
}

// Puts the index behind a text that begins with the token of this number, if one does.
fn push_index(text: &mut Vec<u8>, source: &Source, number: usize) -> Result<(), AllocError>
    requires { number < 2 ^ 63 }
    ensures { OnOk result (text.new.items ≡ text.old.items ++ index_at source.now number) }
{
    if source.word_at(number) != b"(".as_slice() {
        return Ok(());
    }
    push_word(text, source, number)?;
    push_word(text, source, number + 1)?;
    push_word(text, source, number + 2)
}
