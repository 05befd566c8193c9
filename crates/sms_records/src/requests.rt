//! Requests as records.

use crate::decks::{read_deck, write_deck_variant};
use crate::numbers::read_byte;
use crate::pairs::write_variant;
use crate::record_err::RecordErr;
use crate::recorded::Recorded;
use desk_common::Shared;
use dsn_mask::{Dsn, Name};
use sms_construct::{Action, Alloc, Op, Request, RequestNumber, Target};
use std::alloc::{AllocError, Global};

impl Recorded for Op {
    ghost use Rattle.sms_records.specs.Requests.{op_form};
    ghost use Rattle.sms_records.specs.Inner.RequestLaws.{op_exact};

    ghost form = { op_form };

    ghost exact = { op_exact };

    fn write_to(&self, out: &mut Vec<u8>) -> Result<(), AllocError> {
        match self {
            Op::Alloc(allocation) => write_variant(0, allocation, out),
            Op::Extend(dsn) => write_variant(1, dsn, out),
            Op::Delete(dsn) => write_variant(2, dsn, out),
            Op::Used { dsn, tracks } => write_variant(3, &(*dsn, *tracks), out),
            Op::Release(dsn) => write_variant(4, dsn, out),
            Op::Display(target) => write_variant(5, target, out),
            Op::Activate(deck) => write_deck_variant(6, deck, out),
            Op::Vary { target, action } => write_variant(7, &(*target, *action), out),
            Op::Purge { job, floor } => write_variant(8, &(*job, *floor), out),
        }
    }

    #[tactic(auto, using(crate::specs::Inner::VariantLaws::past_readers), unfolding(crate::specs::Form::variant_at, crate::specs::Form::made_at))]
    fn read_from(alloc: Global, bytes: &[u8]) -> Result<(Self, &[u8]), RecordErr> {
        let (tag, rest) = read_byte(bytes)?;
        match tag {
            0 => match <Shared<Alloc>>::read_from(alloc, rest) {
                Ok((allocation, rest)) => Ok((Op::Alloc(allocation), rest)),
                Err(err) => Err(err),
            },
            1 => match Dsn::read_from(alloc, rest) {
                Ok((dsn, rest)) => Ok((Op::Extend(dsn), rest)),
                Err(err) => Err(err),
            },
            2 => match Dsn::read_from(alloc, rest) {
                Ok((dsn, rest)) => Ok((Op::Delete(dsn), rest)),
                Err(err) => Err(err),
            },
            3 => match <(Dsn, u32)>::read_from(alloc, rest) {
                Ok(((dsn, tracks), rest)) => Ok((Op::Used { dsn, tracks }, rest)),
                Err(err) => Err(err),
            },
            4 => match Dsn::read_from(alloc, rest) {
                Ok((dsn, rest)) => Ok((Op::Release(dsn), rest)),
                Err(err) => Err(err),
            },
            5 => match Target::read_from(alloc, rest) {
                Ok((target, rest)) => Ok((Op::Display(target), rest)),
                Err(err) => Err(err),
            },
            6 => match read_deck(alloc, rest) {
                Ok((deck, rest)) => Ok((Op::Activate(deck), rest)),
                Err(err) => Err(err),
            },
            7 => match <(Target, Action)>::read_from(alloc, rest) {
                Ok(((target, action), rest)) => Ok((Op::Vary { target, action }, rest)),
                Err(err) => Err(err),
            },
            8 => match <(Name, RequestNumber)>::read_from(alloc, rest) {
                Ok(((job, floor), rest)) => Ok((Op::Purge { job, floor }, rest)),
                Err(err) => Err(err),
            },
            _ => Err(RecordErr::Bad),
        }
    }
}

impl Recorded for Request {
    ghost use Rattle.sms_records.specs.Requests.{request_form};
    ghost use Rattle.sms_records.specs.Inner.RequestLaws.{request_exact};

    ghost form = { request_form };

    ghost exact = { request_exact };

    fn write_to(&self, out: &mut Vec<u8>) -> Result<(), AllocError> {
        (self.job, self.number).write_to(out)?;
        self.op.write_to(out)
    }

    #[tactic(auto, unfolding(crate::specs::Form::seen_at))]
    fn read_from(alloc: Global, bytes: &[u8]) -> Result<(Self, &[u8]), RecordErr> {
        match <((Name, RequestNumber), Op)>::read_from(alloc, bytes) {
            Ok((((job, number), op), rest)) => Ok((Request { job, number, op }, rest)),
            Err(err) => Err(err),
        }
    }
}
