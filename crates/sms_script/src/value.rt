//! The values of operands.
ghost use Rattle.std.specs.Prelude.{◌≡◌};
ghost use Rattle.std.specs.List.{list_all};
ghost use Rattle.dsn_mask.specs.Name.{is_digit};
ghost use Rattle.sms_script.specs.Values.{count_of, date_of, eattr_of, is_open_byte, name_value_of, number_to};
ghost use Rattle.sms_script.specs.Values.{plain_of};

use crate::parts::is_word;
use desk_common::MAX_VOLUMES;
use dsn_mask::{Name, Short};
use sms_construct::{Eattr, VolumeCount, read_number};

/// The number up to this one that a text writes, if any.
pub fn read_number_to(most: u32, bytes: &[u8]) -> Option<u32>
    ensures { result ≡ number_to most bytes.now }
{
    let number = read_number(bytes)?;
    if number <= most { Some(number) } else { None }
}

/// A value of routines of 1 to so many bytes, with no parenthesis and no comma.
pub fn read_plain(most: usize, bytes: &[u8]) -> Option<Short>
    ensures { result ≡ plain_of most bytes.now }
{
    if bytes.is_empty() || bytes.len() > most || !are_open(bytes) {
        return None;
    }
    Short::new(bytes)
}

fn are_open(bytes: &[u8]) -> bool
    ensures { result ≡ list_all is_open_byte bytes.now }
{
    bytes.iter().all(|byte| is_open_byte(*byte))
}

fn is_open_byte(byte: u8) -> bool
    ensures { result ≡ is_open_byte byte }
{
    byte != b'(' && byte != b')' && byte != b','
}

/// A name, as a value of routines.
pub fn read_name_value(bytes: &[u8]) -> Option<Short>
    ensures { result ≡ name_value_of bytes.now }
{
    let name = Name::new(bytes)?;
    Short::new(name.bytes())
}

/// Seven digits, as a value of routines.
pub fn read_date(bytes: &[u8]) -> Option<Short>
    ensures { result ≡ date_of bytes.now }
{
    if bytes.len() != 7 || !are_digits(bytes) {
        return None;
    }
    Short::new(bytes)
}

fn are_digits(bytes: &[u8]) -> bool
    ensures { result ≡ list_all is_digit bytes.now }
{
    bytes.iter().all(|byte| is_digit(*byte))
}

fn is_digit(byte: u8) -> bool
    ensures { result ≡ is_digit byte }
{
    byte >= b'0' && byte <= b'9'
}

/// A volume count.
pub fn read_count(bytes: &[u8]) -> Option<VolumeCount>
    ensures { result ≡ count_of bytes.now }
{
    let number = read_number(bytes)?;
    if number > MAX_VOLUMES as u32 {
        return None;
    }
    VolumeCount::new(number as u8)
}

/// Whether the data set may lie on cylinder-managed space.
pub fn read_eattr(bytes: &[u8]) -> Option<Eattr>
    ensures { result ≡ eattr_of bytes.now }
{
    if is_word(bytes, b"OPT") {
        Some(Eattr::Opt)
    } else if is_word(bytes, b"NO") {
        Some(Eattr::No)
    } else {
        None
    }
}
