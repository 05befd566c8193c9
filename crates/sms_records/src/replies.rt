//! Replies as records.
ghost use Rattle.std.specs.Prelude.{◌≤◌, ◌∷◌};
ghost use Rattle.sms_records.specs.Form.{variant_at};
ghost use Rattle.sms_records.specs.Reading.{Gives};
ghost use Rattle.sms_records.specs.Replies.{reply_readers};

use crate::numbers::{read_byte, write_byte};
use crate::pairs::{write_variant, write_variant_of_two};
use crate::record_err::RecordErr;
use crate::recorded::Recorded;
use acs_tree::Kind;
use desk_common::{Items, Shared};
use dsn_mask::{Name, Short, Volser};
use sms_construct::{DataSet, Extent, Fault, Reply, Status, Target, Trace, View, WhyNoExtend};
use std::alloc::{AllocError, Global};

impl Recorded for Reply {
    ghost use Rattle.sms_records.specs.Replies.{reply_form};
    ghost use Rattle.sms_records.specs.Inner.ReplyLaws.{reply_exact};

    ghost form = { reply_form };

    ghost exact = { reply_exact };

    fn write_to(&self, out: &mut Vec<u8>) -> Result<(), AllocError> {
        match self {
            Reply::Granted { set, trace } => write_variant_of_two(0, set, trace, out),
            Reply::NotManaged { trace } => write_variant(1, trace, out),
            Reply::Extended { added } => write_variant(2, added, out),
            Reply::Deleted { tracks } => write_variant(3, tracks, out),
            Reply::Activated { count } => write_variant(4, count, out),
            Reply::Varied { target, status } => write_variant(5, &(*target, *status), out),
            Reply::Shown(view) => write_variant(6, view, out),
            Reply::Purged { job, floor } => write_variant(7, &(*job, *floor), out),
            Reply::Noted => write_byte(8, out),
            Reply::Released { tracks } => write_variant(9, tracks, out),
            Reply::Reused { first } => write_variant(10, first, out),
            Reply::Below { floor } => write_variant(11, floor, out),
            Reply::NoConfig => write_byte(12, out),
            Reply::NameInUse => write_byte(13, out),
            Reply::Exit { kind, code, trace } => write_variant_of_two(
                14,
                &(*kind, *code),
                trace,
                out,
            ),
            Reply::UnknownClass { kind, name, trace } => write_variant_of_two(
                15,
                &(*kind, *name),
                trace,
                out,
            ),
            Reply::NoQuantity { trace } => write_variant(16, trace, out),
            Reply::NoGroup { trace } => write_variant(17, trace, out),
            Reply::NoVolume { trace } => write_variant(18, trace, out),
            Reply::NotFound => write_byte(19, out),
            Reply::NoExtend(why) => write_variant(20, why, out),
            Reply::Deck(fault) => write_variant(21, fault, out),
            Reply::VolumeInUse(volser) => write_variant(22, volser, out),
            Reply::UnknownName => write_byte(23, out),
            Reply::JournalFull => write_byte(24, out),
            Reply::PastGrant { granted } => write_variant(25, granted, out),
            Reply::KeeperFault => write_byte(26, out),
            Reply::Memory => write_byte(27, out),
        }
    }

    #[tactic(auto, unfolding(crate::specs::Form::variant_at))]
    fn read_from(alloc: Global, bytes: &[u8]) -> Result<(Self, &[u8]), RecordErr> {
        let (tag, rest) = read_byte(bytes)?;
        read_answer(alloc, tag, rest)
    }
}

// The reply of this position, whose fields are at the front of the bytes: A00 to A09, and the others.
#[tactic(auto, unfolding(crate::specs::Form::variant_at, crate::specs::Form::made_at))]
fn read_answer(alloc: Global, tag: u8, bytes: &[u8]) -> Result<(Reply, &[u8]), RecordErr>
    ensures { Gives (λ x. (x.0, x.1.now)) result (variant_at reply_readers (tag ∷ bytes.now)) }
{
    match tag {
        0 => match <(Shared<DataSet>, Shared<Trace>)>::read_from(alloc, bytes) {
            Ok(((set, trace), rest)) => Ok((Reply::Granted { set, trace }, rest)),
            Err(err) => Err(err),
        },
        1 => match <Shared<Trace>>::read_from(alloc, bytes) {
            Ok((trace, rest)) => Ok((Reply::NotManaged { trace }, rest)),
            Err(err) => Err(err),
        },
        2 => match <Shared<Items<Extent>>>::read_from(alloc, bytes) {
            Ok((added, rest)) => Ok((Reply::Extended { added }, rest)),
            Err(err) => Err(err),
        },
        3 => match u64::read_from(alloc, bytes) {
            Ok((tracks, rest)) => Ok((Reply::Deleted { tracks }, rest)),
            Err(err) => Err(err),
        },
        4 => match u64::read_from(alloc, bytes) {
            Ok((count, rest)) => Ok((Reply::Activated { count }, rest)),
            Err(err) => Err(err),
        },
        5 => match <(Target, Status)>::read_from(alloc, bytes) {
            Ok(((target, status), rest)) => Ok((Reply::Varied { target, status }, rest)),
            Err(err) => Err(err),
        },
        6 => match View::read_from(alloc, bytes) {
            Ok((view, rest)) => Ok((Reply::Shown(view), rest)),
            Err(err) => Err(err),
        },
        7 => match <(Name, u32)>::read_from(alloc, bytes) {
            Ok(((job, floor), rest)) => Ok((Reply::Purged { job, floor }, rest)),
            Err(err) => Err(err),
        },
        8 => Ok((Reply::Noted, bytes)),
        9 => match u64::read_from(alloc, bytes) {
            Ok((tracks, rest)) => Ok((Reply::Released { tracks }, rest)),
            Err(err) => Err(err),
        },
        _ => read_refusal(alloc, tag, bytes),
    }
}

// R10 to R18, and the others.
#[tactic(auto, unfolding(crate::specs::Form::variant_at, crate::specs::Form::made_at))]
fn read_refusal(alloc: Global, tag: u8, bytes: &[u8]) -> Result<(Reply, &[u8]), RecordErr>
    requires { 10 ≤ tag }
    ensures { Gives (λ x. (x.0, x.1.now)) result (variant_at reply_readers (tag ∷ bytes.now)) }
{
    match tag {
        10 => match u64::read_from(alloc, bytes) {
            Ok((first, rest)) => Ok((Reply::Reused { first }, rest)),
            Err(err) => Err(err),
        },
        11 => match u32::read_from(alloc, bytes) {
            Ok((floor, rest)) => Ok((Reply::Below { floor }, rest)),
            Err(err) => Err(err),
        },
        12 => Ok((Reply::NoConfig, bytes)),
        13 => Ok((Reply::NameInUse, bytes)),
        14 => match <((Kind, u16), Shared<Trace>)>::read_from(alloc, bytes) {
            Ok((((kind, code), trace), rest)) => Ok((Reply::Exit { kind, code, trace }, rest)),
            Err(err) => Err(err),
        },
        15 => match <((Kind, Short), Shared<Trace>)>::read_from(alloc, bytes) {
            Ok((((kind, name), trace), rest)) => Ok((
                Reply::UnknownClass { kind, name, trace },
                rest,
            )),
            Err(err) => Err(err),
        },
        16 => match <Shared<Trace>>::read_from(alloc, bytes) {
            Ok((trace, rest)) => Ok((Reply::NoQuantity { trace }, rest)),
            Err(err) => Err(err),
        },
        17 => match <Shared<Trace>>::read_from(alloc, bytes) {
            Ok((trace, rest)) => Ok((Reply::NoGroup { trace }, rest)),
            Err(err) => Err(err),
        },
        18 => match <Shared<Trace>>::read_from(alloc, bytes) {
            Ok((trace, rest)) => Ok((Reply::NoVolume { trace }, rest)),
            Err(err) => Err(err),
        },
        _ => read_other(alloc, tag, bytes),
    }
}

// R19 to R25, F30 and M31.
#[tactic(auto, unfolding(crate::specs::Form::variant_at, crate::specs::Form::made_at))]
fn read_other(alloc: Global, tag: u8, bytes: &[u8]) -> Result<(Reply, &[u8]), RecordErr>
    requires { 19 ≤ tag }
    ensures { Gives (λ x. (x.0, x.1.now)) result (variant_at reply_readers (tag ∷ bytes.now)) }
{
    match tag {
        19 => Ok((Reply::NotFound, bytes)),
        20 => match WhyNoExtend::read_from(alloc, bytes) {
            Ok((why, rest)) => Ok((Reply::NoExtend(why), rest)),
            Err(err) => Err(err),
        },
        21 => match <Shared<Fault>>::read_from(alloc, bytes) {
            Ok((fault, rest)) => Ok((Reply::Deck(fault), rest)),
            Err(err) => Err(err),
        },
        22 => match Volser::read_from(alloc, bytes) {
            Ok((volser, rest)) => Ok((Reply::VolumeInUse(volser), rest)),
            Err(err) => Err(err),
        },
        23 => Ok((Reply::UnknownName, bytes)),
        24 => Ok((Reply::JournalFull, bytes)),
        25 => match u64::read_from(alloc, bytes) {
            Ok((granted, rest)) => Ok((Reply::PastGrant { granted }, rest)),
            Err(err) => Err(err),
        },
        26 => Ok((Reply::KeeperFault, bytes)),
        27 => Ok((Reply::Memory, bytes)),
        _ => Err(RecordErr::Bad),
    }
}
