//! The code of an answer among its lines.
ghost use Rattle.std.specs.Prelude.{◌≡◌, take};
ghost use Rattle.page_text.specs.Inner.AnswerPieces.{first_of};

use desk_common::Items;

/// The first three bytes of the first line.
pub fn code_of(lines: &[Items<u8>]) -> &[u8]
    ensures { result.now ≡ take 3 (first_of lines.entry.now) }
{
    match lines {
        [line, ..] => front_of(line.as_slice()),
        [] => &[],
    }
}

fn front_of(line: &[u8]) -> &[u8]
    ensures { result.now ≡ take 3 line.entry.now }
{
    if line.len() < 3 { line } else { &line[..3] }
}
