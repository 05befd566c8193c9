//! Numbers as bytes.
ghost use Rattle.std.specs.Prelude.{◌≡◌, ◌++◌, ◌∷◌, [], ◌^◌, ◌<◌, OnOk};
ghost use Rattle.std.specs.Int.{w64, to_be_bytes};
ghost use Rattle.sms_records.specs.Form.{IsReadable, byte_at, number_8_form, number_16_form, number_32_form, number_at};
ghost use Rattle.sms_records.specs.Reading.{Gives};

use crate::record_err::RecordErr;
use crate::recorded::Recorded;
use std::alloc::{AllocError, Global};

/// Eight bytes, the greatest first.
pub fn write_number(number: u64, out: &mut Vec<u8>) -> Result<(), AllocError>
    ensures written { OnOk result (out.new.items ≡ out.old.items ++ to_be_bytes w64 number) }
    ensures fits { number < 2 ^ 64 }
{
    out.extend_from_slice(&number.to_be_bytes())
}

// The number in eight bytes.
fn write_u32(number: u32, out: &mut Vec<u8>) -> Result<(), AllocError>
    ensures written { OnOk result (out.new.items ≡ out.old.items ++ to_be_bytes w64 number) }
    ensures readable { OnOk result (IsReadable number_32_form number) }
{
    write_number(u64::from(number), out)
}

/// The number at the front of the bytes.
pub fn read_number(bytes: &[u8]) -> Result<(u64, &[u8]), RecordErr>
    ensures { Gives (λ x. (x.0, x.1.now)) result (number_at bytes.now) }
{
    if bytes.len() < 8 {
        return Err(RecordErr::Bad);
    }
    let (front, rest) = bytes.split_at(8);
    let number = u64::from_be_bytes([
        front[0], front[1], front[2], front[3], front[4], front[5], front[6], front[7],
    ]);
    Ok((number, rest))
}

// The number in eight bytes.
fn write_u16(number: u16, out: &mut Vec<u8>) -> Result<(), AllocError>
    ensures written { OnOk result (out.new.items ≡ out.old.items ++ to_be_bytes w64 number) }
    ensures readable { OnOk result (IsReadable number_16_form number) }
{
    write_number(u64::from(number), out)
}

// The number in eight bytes.
fn write_u8(number: u8, out: &mut Vec<u8>) -> Result<(), AllocError>
    ensures written { OnOk result (out.new.items ≡ out.old.items ++ to_be_bytes w64 number) }
    ensures readable { OnOk result (IsReadable number_8_form number) }
{
    write_number(u64::from(number), out)
}

/// One byte.
pub fn write_byte(byte: u8, out: &mut Vec<u8>) -> Result<(), AllocError>
    ensures { OnOk result (out.new.items ≡ out.old.items ++ byte ∷ []) }
{
    Ok(out.push(byte)?)
}

/// The byte at the front of the bytes.
pub fn read_byte(bytes: &[u8]) -> Result<(u8, &[u8]), RecordErr>
    ensures { Gives (λ x. (x.0, x.1.now)) result (byte_at bytes.now) }
{
    match bytes {
        [] => Err(RecordErr::Bad),
        [byte, rest @ ..] => Ok((*byte, rest)),
    }
}

impl Recorded for u64 {
    ghost use Rattle.sms_records.specs.Form.{number_form};
    ghost use Rattle.sms_records.specs.Inner.FormLaws.{number_exact};

    ghost form = { number_form };

    ghost exact = { number_exact };

    #[tactic(auto, using(crate::specs::Inner::FormLaws::number_readable))]
    fn write_to(&self, out: &mut Vec<u8>) -> Result<(), AllocError> {
        write_number(*self, out)
    }

    fn read_from(_alloc: Global, bytes: &[u8]) -> Result<(Self, &[u8]), RecordErr> {
        read_number(bytes)
    }
}

impl Recorded for u32 {
    ghost use Rattle.sms_records.specs.Form.{number_32_form};
    ghost use Rattle.sms_records.specs.Inner.FormLaws.{number_32_exact};

    ghost form = { number_32_form };

    ghost exact = { number_32_exact };

    fn write_to(&self, out: &mut Vec<u8>) -> Result<(), AllocError> {
        write_u32(*self, out)
    }

    #[tactic(auto, unfolding(crate::specs::Form::seen_at))]
    fn read_from(_alloc: Global, bytes: &[u8]) -> Result<(Self, &[u8]), RecordErr> {
        let (number, rest) = read_number(bytes)?;
        match u32::try_from(number) {
            Ok(number) => Ok((number, rest)),
            Err(_) => Err(RecordErr::Bad),
        }
    }
}

impl Recorded for u16 {
    ghost use Rattle.sms_records.specs.Form.{number_16_form};
    ghost use Rattle.sms_records.specs.Inner.FormLaws.{number_16_exact};

    ghost form = { number_16_form };

    ghost exact = { number_16_exact };

    fn write_to(&self, out: &mut Vec<u8>) -> Result<(), AllocError> {
        write_u16(*self, out)
    }

    #[tactic(auto, unfolding(crate::specs::Form::seen_at))]
    fn read_from(_alloc: Global, bytes: &[u8]) -> Result<(Self, &[u8]), RecordErr> {
        let (number, rest) = read_number(bytes)?;
        match u16::try_from(number) {
            Ok(number) => Ok((number, rest)),
            Err(_) => Err(RecordErr::Bad),
        }
    }
}

impl Recorded for u8 {
    ghost use Rattle.sms_records.specs.Form.{number_8_form};
    ghost use Rattle.sms_records.specs.Inner.FormLaws.{number_8_exact};

    ghost form = { number_8_form };

    ghost exact = { number_8_exact };

    fn write_to(&self, out: &mut Vec<u8>) -> Result<(), AllocError> {
        write_u8(*self, out)
    }

    #[tactic(auto, unfolding(crate::specs::Form::seen_at))]
    fn read_from(_alloc: Global, bytes: &[u8]) -> Result<(Self, &[u8]), RecordErr> {
        let (number, rest) = read_number(bytes)?;
        match u8::try_from(number) {
            Ok(number) => Ok((number, rest)),
            Err(_) => Err(RecordErr::Bad),
        }
    }
}
