//! Words, numbers and names put behind a text, or written from the end of a room to its front.
ghost use Rattle.std.specs.Prelude.{◌≡◌, ◌+◌, ◌≤◌, ◌<◌, ◌++◌, ◌∷◌, [], OnOk, decimal, drop, length};
ghost use Rattle.desk_common.specs.Bytes.{space_byte};
ghost use Rattle.desk_common.specs.Limits.{most_name_bytes};
ghost use Rattle.sms_script.specs.NameText.{name_text, status_text, target_text, value_text};
ghost use Rattle.sms_script.specs.Inner.Rooms.{line_room, number_room};

use desk_common::push_number;
use dsn_mask::{Name, Short};
use itoa::write_digits;
use sms_construct::{Status, Target};
use std::alloc::AllocError;

/// A word and a blank.
pub fn push_word_and_blank(text: &mut Vec<u8>, word: &[u8]) -> Result<(), AllocError>
    ensures { OnOk result (text.new.items ≡ text.old.items ++ word.now ++ space_byte ∷ []) }
{
    text.extend_from_slice(word)?;
    text.extend_from_slice(b" ")
}

// The most bytes of a number and a blank.
const MOST_BYTES: usize = 21;

/// A number and a blank.
pub fn push_number_and_blank(text: &mut Vec<u8>, number: u64) -> Result<(), AllocError>
    ensures { OnOk result (text.new.items ≡ text.old.items ++ decimal number ++ space_byte ∷ []) }
{
    let mut room = [0u8; MOST_BYTES];
    let start = write_number_and_blank(number, &mut room, MOST_BYTES);
    text.extend_from_slice(&room[start..])
}

/// Writes a number and a blank so that they end at this place; tells where they start. Any bytes may stand before that
/// afterwards.
pub fn write_number_and_blank(number: u64, room: &mut [u8], end: usize) -> usize
    requires { (number_room ≤ end) × (end ≤ length room.old) }
    ensures start { (end ≤ result + number_room) × (result ≤ end) }
    ensures written { drop result room.new ≡ decimal number ++ space_byte ∷ drop end room.old }
{
    room[end - 1] = b' ';
    write_digits(number, room, end - 1)
}

/// The bytes of a room in which a line is written from its end to its front. No line that is written so has more.
pub const ROOM: usize = 112;

/// Writes a word so that it ends at this place; tells where it starts. Any bytes may stand before that afterwards.
#[inline(always)]
pub fn write_word(word: &[u8], room: &mut [u8; ROOM], end: usize) -> usize
    requires { (length word.now ≤ end) × (end ≤ line_room) }
    ensures start { result + length word.now ≡ end }
    ensures written { drop result room.new ≡ word.now ++ drop end room.old }
{
    let start = end - word.len();
    room[start..end].copy_from_slice(word);
    start
}

/// Writes a word and a blank in the same way.
#[inline(always)]
pub fn write_word_and_blank(word: &[u8], room: &mut [u8; ROOM], end: usize) -> usize
    requires { (length word.now < end) × (end ≤ line_room) }
    ensures start { result + length word.now + 1 ≡ end }
    ensures written { drop result room.new ≡ word.now ++ space_byte ∷ drop end room.old }
{
    room[end - 1] = b' ';
    write_word(word, room, end - 1)
}

/// Writes a number in the same way.
#[inline(always)]
pub fn write_number(number: u64, room: &mut [u8], end: usize) -> usize
    requires { (20 ≤ end) × (end ≤ length room.old) }
    ensures start { (end ≤ result + 20) × (result ≤ end) }
    ensures written { drop result room.new ≡ decimal number ++ drop end room.old }
{
    write_digits(number, room, end)
}

/// A word and a number behind it.
pub fn push_counted(text: &mut Vec<u8>, words: &[u8], number: u64) -> Result<(), AllocError>
    ensures { OnOk result (text.new.items ≡ text.old.items ++ (words.now ++ decimal number)) }
{
    text.extend_from_slice(words)?;
    push_number(text, number)
}

/// A name, or a hyphen for none.
pub fn name_bytes(name: &Option<Name>) -> &[u8]
    ensures text { result.now ≡ name_text name.now }
    ensures short { length result.now ≤ most_name_bytes }
{
    match name {
        Some(name) => name.bytes(),
        None => b"-",
    }
}

/// A value, or a hyphen for null (docs/manual/script.md, "Answers").
pub fn value_bytes(value: &Short) -> &[u8]
    ensures { result.now ≡ value_text value.now }
{
    match value.bytes() {
        [] => b"-",
        bytes => bytes,
    }
}

/// The word of a status (docs/manual/script.md, "Answers").
pub fn status_bytes(status: Status) -> &'static [u8]
    ensures { result.now ≡ status_text status }
{
    match status {
        Status::Enable => b"ENABLE",
        Status::NotCon => b"NOTCON",
        Status::DisAll => b"DISALL",
        Status::DisNew => b"DISNEW",
        Status::QuiAll => b"QUIALL",
        Status::QuiNew => b"QUINEW",
    }
}

/// The name of what a status belongs to.
pub fn target_bytes(target: &Target) -> &[u8]
    ensures { result.now ≡ target_text target.now }
{
    match target {
        Target::Group(name) => name.bytes(),
        Target::Volume(volser) => volser.bytes(),
        Target::Set(dsn) => dsn.bytes(),
    }
}
