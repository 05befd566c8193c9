//! Texts and numbers as records.
ghost use Rattle.std.specs.Prelude.{◌≡◌, ◌++◌, ◌^◌, ◌<◌, OnOk, length};
ghost use Rattle.sms_records.specs.Form.{text_form, text_at};
ghost use Rattle.sms_records.specs.Reading.{Gives};

use crate::numbers::{read_number, write_number};
use crate::record_err::RecordErr;
use crate::recorded::Recorded;
use dsn_mask::{Dsn, Lit, Name, Short, Volser};
use sms_construct::{RequestNumber, VolumeCount};
use std::alloc::{AllocError, Global};

/// The length of a text as a number, and its bytes.
pub fn write_text(bytes: &[u8], out: &mut Vec<u8>) -> Result<(), AllocError>
    ensures written { OnOk result (out.new.items ≡ out.old.items ++ text_form.write bytes.now) }
    ensures fits { length bytes.now < 2 ^ 64 }
{
    write_number(bytes.len() as u64, out)?;
    out.extend_from_slice(bytes)
}

/// The text at the front of the bytes.
#[tactic(auto, unfolding(crate::specs::Form::text_at))]
pub fn read_text(bytes: &[u8]) -> Result<(&[u8], &[u8]), RecordErr>
    ensures { Gives (λ x. (x.0.now, x.1.now)) result (text_at bytes.now) }
{
    let (count, rest) = read_number(bytes)?;
    if (rest.len() as u64) < count {
        return Err(RecordErr::Bad);
    }
    Ok(rest.split_at(count as usize))
}

impl Recorded for Name {
    ghost use Rattle.sms_records.specs.Texts.{name_form};
    ghost use Rattle.sms_records.specs.Inner.TextLaws.{name_exact};

    ghost form = { name_form };

    ghost exact = { name_exact };

    #[tactic(auto, using(crate::specs::Inner::TextLaws::name_readable, crate::specs::Inner::FormLaws::on_ok))]
    fn write_to(&self, out: &mut Vec<u8>) -> Result<(), AllocError> {
        write_text(self.bytes(), out)
    }

    #[tactic(auto, unfolding(crate::specs::Form::seen_at))]
    fn read_from(_alloc: Global, bytes: &[u8]) -> Result<(Self, &[u8]), RecordErr> {
        let (found, rest) = read_text(bytes)?;
        match Name::new(found) {
            Some(name) => Ok((name, rest)),
            None => Err(RecordErr::Bad),
        }
    }
}

impl Recorded for Volser {
    ghost use Rattle.sms_records.specs.Texts.{volser_form};
    ghost use Rattle.sms_records.specs.Inner.TextLaws.{volser_exact};

    ghost form = { volser_form };

    ghost exact = { volser_exact };

    #[tactic(auto, using(crate::specs::Inner::TextLaws::volser_readable, crate::specs::Inner::FormLaws::on_ok))]
    fn write_to(&self, out: &mut Vec<u8>) -> Result<(), AllocError> {
        write_text(self.bytes(), out)
    }

    #[tactic(auto, unfolding(crate::specs::Form::seen_at))]
    fn read_from(_alloc: Global, bytes: &[u8]) -> Result<(Self, &[u8]), RecordErr> {
        let (found, rest) = read_text(bytes)?;
        match Volser::new(found) {
            Some(volser) => Ok((volser, rest)),
            None => Err(RecordErr::Bad),
        }
    }
}

impl Recorded for Short {
    ghost use Rattle.sms_records.specs.Texts.{short_form};
    ghost use Rattle.sms_records.specs.Inner.TextLaws.{short_exact};

    ghost form = { short_form };

    ghost exact = { short_exact };

    #[tactic(auto, using(crate::specs::Inner::TextLaws::short_readable, crate::specs::Inner::FormLaws::on_ok))]
    fn write_to(&self, out: &mut Vec<u8>) -> Result<(), AllocError> {
        write_text(self.bytes(), out)
    }

    #[tactic(auto, unfolding(crate::specs::Form::seen_at))]
    fn read_from(_alloc: Global, bytes: &[u8]) -> Result<(Self, &[u8]), RecordErr> {
        let (found, rest) = read_text(bytes)?;
        match Short::new(found) {
            Some(short) => Ok((short, rest)),
            None => Err(RecordErr::Bad),
        }
    }
}

impl Recorded for Lit {
    ghost use Rattle.sms_records.specs.Texts.{literal_form};
    ghost use Rattle.sms_records.specs.Inner.TextLaws.{literal_exact};

    ghost form = { literal_form };

    ghost exact = { literal_exact };

    #[tactic(auto, using(crate::specs::Inner::TextLaws::literal_readable, crate::specs::Inner::FormLaws::on_ok))]
    fn write_to(&self, out: &mut Vec<u8>) -> Result<(), AllocError> {
        write_text(self.bytes(), out)
    }

    #[tactic(auto, unfolding(crate::specs::Form::seen_at))]
    fn read_from(_alloc: Global, bytes: &[u8]) -> Result<(Self, &[u8]), RecordErr> {
        let (found, rest) = read_text(bytes)?;
        match Lit::new(found) {
            Some(literal) => Ok((literal, rest)),
            None => Err(RecordErr::Bad),
        }
    }
}

impl Recorded for Dsn {
    ghost use Rattle.sms_records.specs.Texts.{dsn_form};
    ghost use Rattle.sms_records.specs.Inner.TextLaws.{dsn_exact};

    ghost form = { dsn_form };

    ghost exact = { dsn_exact };

    #[tactic(auto, using(crate::specs::Inner::TextLaws::dsn_readable, crate::specs::Inner::FormLaws::on_ok))]
    fn write_to(&self, out: &mut Vec<u8>) -> Result<(), AllocError> {
        write_text(self.bytes(), out)
    }

    #[tactic(auto, unfolding(crate::specs::Form::seen_at))]
    fn read_from(_alloc: Global, bytes: &[u8]) -> Result<(Self, &[u8]), RecordErr> {
        let (found, rest) = read_text(bytes)?;
        match Dsn::parse(found) {
            Ok(dsn) => Ok((dsn, rest)),
            Err(_) => Err(RecordErr::Bad),
        }
    }
}

impl Recorded for RequestNumber {
    ghost use Rattle.sms_records.specs.Texts.{request_number_form};
    ghost use Rattle.sms_records.specs.Inner.TextLaws.{request_number_exact};

    ghost form = { request_number_form };

    ghost exact = { request_number_exact };

    #[tactic(auto, using(crate::specs::Inner::TextLaws::request_number_readable, crate::specs::Inner::FormLaws::on_ok))]
    fn write_to(&self, out: &mut Vec<u8>) -> Result<(), AllocError> {
        write_number(u64::from(self.get()), out)
    }

    #[tactic(auto, unfolding(crate::specs::Form::seen_at))]
    fn read_from(_alloc: Global, bytes: &[u8]) -> Result<(Self, &[u8]), RecordErr> {
        let (number, rest) = read_number(bytes)?;
        let Ok(number) = u32::try_from(number) else {
            return Err(RecordErr::Bad);
        };
        match RequestNumber::new(number) {
            Some(number) => Ok((number, rest)),
            None => Err(RecordErr::Bad),
        }
    }
}

impl Recorded for VolumeCount {
    ghost use Rattle.sms_records.specs.Texts.{volume_count_form};
    ghost use Rattle.sms_records.specs.Inner.TextLaws.{volume_count_exact};

    ghost form = { volume_count_form };

    ghost exact = { volume_count_exact };

    #[tactic(auto, using(crate::specs::Inner::TextLaws::volume_count_readable, crate::specs::Inner::FormLaws::on_ok))]
    fn write_to(&self, out: &mut Vec<u8>) -> Result<(), AllocError> {
        write_number(u64::from(self.get()), out)
    }

    #[tactic(auto, unfolding(crate::specs::Form::seen_at))]
    fn read_from(_alloc: Global, bytes: &[u8]) -> Result<(Self, &[u8]), RecordErr> {
        let (number, rest) = read_number(bytes)?;
        let Ok(number) = u8::try_from(number) else {
            return Err(RecordErr::Bad);
        };
        match VolumeCount::new(number) {
            Some(number) => Ok((number, rest)),
            None => Err(RecordErr::Bad),
        }
    }
}
