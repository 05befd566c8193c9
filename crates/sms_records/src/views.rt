//! What is named and what is shown, as records.

use crate::numbers::read_byte;
use crate::pairs::write_variant;
use crate::record_err::RecordErr;
use crate::recorded::Recorded;
use desk_common::Shared;
use dsn_mask::{Dsn, Name, Volser};
use sms_construct::{DataSet, Status, Target, View, VolRow};
use std::alloc::{AllocError, Global};

impl Recorded for Target {
    ghost use Rattle.sms_records.specs.Views.{target_form};
    ghost use Rattle.sms_records.specs.Inner.ViewLaws.{target_exact};

    ghost form = { target_form };

    ghost exact = { target_exact };

    fn write_to(&self, out: &mut Vec<u8>) -> Result<(), AllocError> {
        match self {
            Target::Group(name) => write_variant(0, name, out),
            Target::Volume(volser) => write_variant(1, volser, out),
            Target::Set(dsn) => write_variant(2, dsn, out),
        }
    }

    #[tactic(auto, using(crate::specs::Inner::VariantLaws::past_readers), unfolding(crate::specs::Form::variant_at, crate::specs::Form::made_at))]
    fn read_from(alloc: Global, bytes: &[u8]) -> Result<(Self, &[u8]), RecordErr> {
        let (tag, rest) = read_byte(bytes)?;
        match tag {
            0 => match Name::read_from(alloc, rest) {
                Ok((name, rest)) => Ok((Target::Group(name), rest)),
                Err(err) => Err(err),
            },
            1 => match Volser::read_from(alloc, rest) {
                Ok((volser, rest)) => Ok((Target::Volume(volser), rest)),
                Err(err) => Err(err),
            },
            2 => match Dsn::read_from(alloc, rest) {
                Ok((dsn, rest)) => Ok((Target::Set(dsn), rest)),
                Err(err) => Err(err),
            },
            _ => Err(RecordErr::Bad),
        }
    }
}

impl Recorded for VolRow {
    ghost use Rattle.sms_records.specs.Views.{vol_row_form};
    ghost use Rattle.sms_records.specs.Inner.ViewLaws.{vol_row_exact};

    ghost form = { vol_row_form };

    ghost exact = { vol_row_exact };

    fn write_to(&self, out: &mut Vec<u8>) -> Result<(), AllocError> {
        (
            self.volser,
            (
                self.group,
                (self.status, (self.capacity, (self.free, self.extents))),
            ),
        )
            .write_to(out)
    }

    #[tactic(auto, unfolding(crate::specs::Form::seen_at))]
    fn read_from(alloc: Global, bytes: &[u8]) -> Result<(Self, &[u8]), RecordErr> {
        match <(Volser, (Name, (Status, (u32, (u32, u32)))))>::read_from(alloc, bytes) {
            Ok(((volser, (group, (status, (capacity, (free, extents))))), rest)) => Ok((
                VolRow {
                    volser,
                    group,
                    status,
                    capacity,
                    free,
                    extents,
                },
                rest,
            )),
            Err(err) => Err(err),
        }
    }
}

impl Recorded for View {
    ghost use Rattle.sms_records.specs.Views.{view_form};
    ghost use Rattle.sms_records.specs.Inner.ViewLaws.{view_exact};

    ghost form = { view_form };

    ghost exact = { view_exact };

    fn write_to(&self, out: &mut Vec<u8>) -> Result<(), AllocError> {
        match self {
            View::Group {
                name,
                status,
                volumes,
                capacity,
                free,
            } => write_variant(0, &(*name, (*status, (*volumes, (*capacity, *free)))), out),
            View::Volume(row) => write_variant(1, row, out),
            View::Set(set) => write_variant(2, set, out),
        }
    }

    #[tactic(auto, using(crate::specs::Inner::VariantLaws::past_readers), unfolding(crate::specs::Form::variant_at, crate::specs::Form::made_at))]
    fn read_from(alloc: Global, bytes: &[u8]) -> Result<(Self, &[u8]), RecordErr> {
        let (tag, rest) = read_byte(bytes)?;
        match tag {
            0 => match <(Name, (Status, (u32, (u64, u64))))>::read_from(alloc, rest) {
                Ok(((name, (status, (volumes, (capacity, free)))), rest)) => Ok((
                    View::Group {
                        name,
                        status,
                        volumes,
                        capacity,
                        free,
                    },
                    rest,
                )),
                Err(err) => Err(err),
            },
            1 => match VolRow::read_from(alloc, rest) {
                Ok((row, rest)) => Ok((View::Volume(row), rest)),
                Err(err) => Err(err),
            },
            2 => match <Shared<DataSet>>::read_from(alloc, rest) {
                Ok((set, rest)) => Ok((View::Set(set), rest)),
                Err(err) => Err(err),
            },
            _ => Err(RecordErr::Bad),
        }
    }
}
