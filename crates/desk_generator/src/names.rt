// The names in a generated script.
ghost use Rattle.std.specs.Prelude.{◌≡◌, ◌≤◌, ◌+◌, ◌<◌, ◌%◌, ◌==◌, ◌++◌, Some, codes, drop, length};
ghost use Rattle.std.specs.Prelude.{if◌then◌else◌};
ghost use Rattle.dsn_mask.specs.DataSetName.{dsn_of};
ghost use Rattle.desk_generator.specs.Generated.{job_at, numbered_name};

use dsn_mask::{Dsn, Name};
use itoa::write_digits;

// Room for the name of any number of the machine.
const ROOM: usize = 24;

/// The job of an item.
pub fn job_at(item: u32) -> Name
    ensures { result ≡ job_at item }
{
    Name::new(&[b'G', digit_of(item % 10)]).unwrap()
}

// The digit of a number below 10.
fn digit_of(number: u32) -> u8
    requires { number < 10 }
    ensures { result ≡ 48 + number }
{
    b'0' + number as u8
}

/// The data set of a number up to 99,999.
#[tactic(auto, using(crate::proofs::NameLemmas::few_digits, crate::proofs::NameLemmas::numbered_is))]
pub fn numbered_name(number: u32) -> Dsn
    requires { number < 100000 }
    ensures { result ≡ numbered_name number }
{
    let mut room = [0u8; ROOM];
    let digits = write_digits(u64::from(number), &mut room, ROOM);
    let start = write_front(front_of(number), &mut room, digits);
    named(&room[start..])
}

// Writes the four bytes before the number, so that they end at this place; tells where they start.
fn write_front(front: &[u8], room: &mut [u8; ROOM], end: usize) -> usize
    requires four { length front.now ≡ 4 }
    requires end { (4 ≤ end) × (end ≤ 24) }
    ensures start { result + 4 ≡ end }
    ensures written { drop result room.new ≡ front.now ++ drop end room.old }
{
    let start = end - 4;
    room[start..end].copy_from_slice(front);
    start
}

// The data set name that a text is.
fn named(text: &[u8]) -> Dsn
    requires { dsn_of text.now ≡ Some text.now }
    ensures { result ≡ text.now }
{
    Dsn::parse(text).unwrap()
}

// The text before the number.
fn front_of(number: u32) -> &'static [u8]
    ensures text { result.now ≡ (if number % 2 == 0 then codes "GA.D" else codes "GB.D") }
    ensures four { length result.now ≡ 4 }
{
    if number % 2 == 0 { b"GA.D" } else { b"GB.D" }
}
