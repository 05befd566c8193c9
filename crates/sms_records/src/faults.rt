//! The faults of decks as records.

use crate::numbers::{read_byte, write_byte};
use crate::pairs::write_variant;
use crate::record_err::RecordErr;
use crate::recorded::Recorded;
use acs_tree::Kind;
use dsn_mask::{Name, Volser};
use sms_construct::{Fault, Path, Stage, TextFault};
use std::alloc::{AllocError, Global};

impl Recorded for TextFault {
    ghost use Rattle.sms_records.specs.Faults.{text_fault_form};
    ghost use Rattle.sms_records.specs.Inner.FaultLaws.{text_fault_exact};

    ghost form = { text_fault_form };

    ghost exact = { text_fault_exact };

    fn write_to(&self, out: &mut Vec<u8>) -> Result<(), AllocError> {
        (self.stage, (self.number, self.at)).write_to(out)
    }

    #[tactic(auto, unfolding(crate::specs::Form::seen_at))]
    fn read_from(alloc: Global, bytes: &[u8]) -> Result<(Self, &[u8]), RecordErr> {
        match <(Stage, (u8, u32))>::read_from(alloc, bytes) {
            Ok(((stage, (number, at)), rest)) => Ok((TextFault { stage, number, at }, rest)),
            Err(err) => Err(err),
        }
    }
}

impl Recorded for Fault {
    ghost use Rattle.sms_records.specs.Faults.{fault_form};
    ghost use Rattle.sms_records.specs.Inner.FaultLaws.{fault_exact};

    ghost form = { fault_form };

    ghost exact = { fault_exact };

    fn write_to(&self, out: &mut Vec<u8>) -> Result<(), AllocError> {
        match self {
            Fault::NotBuilt(path) => write_variant(0, path, out),
            Fault::NotToml => write_byte(1, out),
            Fault::UnknownKey(path) => write_variant(2, path, out),
            Fault::Missing(path) => write_variant(3, path, out),
            Fault::BadValue(path) => write_variant(4, path, out),
            Fault::BadName(path) => write_variant(5, path, out),
            Fault::TwoGroups(volser) => write_variant(6, volser, out),
            Fault::Routine(kind, fault) => write_variant(7, &(*kind, *fault), out),
            Fault::Unassigned(kind, name) => write_variant(8, &(*kind, *name), out),
            Fault::TooMany(path) => write_variant(9, path, out),
        }
    }

    #[tactic(auto, using(crate::specs::Inner::VariantLaws::past_readers), unfolding(crate::specs::Form::variant_at, crate::specs::Form::made_at))]
    fn read_from(alloc: Global, bytes: &[u8]) -> Result<(Self, &[u8]), RecordErr> {
        let (tag, rest) = read_byte(bytes)?;
        match tag {
            0 => match Path::read_from(alloc, rest) {
                Ok((path, rest)) => Ok((Fault::NotBuilt(path), rest)),
                Err(err) => Err(err),
            },
            1 => Ok((Fault::NotToml, rest)),
            2 => match Path::read_from(alloc, rest) {
                Ok((path, rest)) => Ok((Fault::UnknownKey(path), rest)),
                Err(err) => Err(err),
            },
            3 => match Path::read_from(alloc, rest) {
                Ok((path, rest)) => Ok((Fault::Missing(path), rest)),
                Err(err) => Err(err),
            },
            4 => match Path::read_from(alloc, rest) {
                Ok((path, rest)) => Ok((Fault::BadValue(path), rest)),
                Err(err) => Err(err),
            },
            5 => match Path::read_from(alloc, rest) {
                Ok((path, rest)) => Ok((Fault::BadName(path), rest)),
                Err(err) => Err(err),
            },
            6 => match Volser::read_from(alloc, rest) {
                Ok((volser, rest)) => Ok((Fault::TwoGroups(volser), rest)),
                Err(err) => Err(err),
            },
            7 => match <(Kind, TextFault)>::read_from(alloc, rest) {
                Ok(((kind, fault), rest)) => Ok((Fault::Routine(kind, fault), rest)),
                Err(err) => Err(err),
            },
            8 => match <(Kind, Name)>::read_from(alloc, rest) {
                Ok(((kind, name), rest)) => Ok((Fault::Unassigned(kind, name), rest)),
                Err(err) => Err(err),
            },
            9 => match Path::read_from(alloc, rest) {
                Ok((path, rest)) => Ok((Fault::TooMany(path), rest)),
                Err(err) => Err(err),
            },
            _ => Err(RecordErr::Bad),
        }
    }
}
