//! The first line of an answer.
ghost use Rattle.std.specs.Prelude.{◌≡◌, ◌++◌, ◌∷◌, [], codes, decimal, OnOk};
ghost use Rattle.desk_common.specs.Bytes.{space_byte};
ghost use Rattle.acs_tree.specs.Variables.{name_of};
ghost use Rattle.sms_script.specs.NameText.{spaced, status_text, value_text};
ghost use Rattle.sms_script.specs.AnswerText.{reply_text, view_text, why_text};

use crate::fault_text::push_fault;
use crate::pushing::{
    push_counted, push_number_and_blank, push_word_and_blank, status_bytes, target_bytes,
    value_bytes,
};
use acs_tree::Kind;
use desk_common::push_number;
use dsn_mask::{Name, Short};
use sms_construct::{Fault, Reply, Status, View, VolRow, WhyNoExtend};
use std::alloc::AllocError;

/// Puts the code of a reply, its words and its figures behind a text.
pub fn push_reply(text: &mut Vec<u8>, reply: &Reply) -> Result<(), AllocError>
    ensures { OnOk result (text.new.items ≡ text.old.items ++ reply_text reply.now) }
{
    match reply {
        Reply::Granted { .. } => text.extend_from_slice(b"A00 GRANTED"),
        Reply::NotManaged { .. } => text.extend_from_slice(b"A01 NOT MANAGED"),
        Reply::Extended { .. } => text.extend_from_slice(b"A02 EXTENDED"),
        Reply::Deleted { tracks } => push_counted(text, b"A03 DELETED ", *tracks),
        Reply::Activated { count } => push_counted(text, b"A04 ACTIVATED ", *count),
        Reply::Varied { target, status } => {
            text.extend_from_slice(b"A05 VARIED ")?;
            push_word_and_blank(text, target_bytes(target))?;
            text.extend_from_slice(status_bytes(*status))
        }
        Reply::Shown(view) => push_shown(text, view),
        Reply::Purged { job, floor } => push_purged(text, job, *floor),
        Reply::Noted => text.extend_from_slice(b"A08 NOTED"),
        Reply::Released { tracks } => push_counted(text, b"A09 RELEASED ", *tracks),
        Reply::Reused { first } => push_counted(text, b"R10 REUSED NUMBER ", *first),
        Reply::Below { floor } => push_counted(text, b"R11 PURGED NUMBER ", u64::from(*floor)),
        Reply::NoConfig => text.extend_from_slice(b"R12 NO CONFIGURATION"),
        Reply::NameInUse => text.extend_from_slice(b"R13 NAME IN USE"),
        Reply::Exit { kind, code, .. } => push_exit(text, *kind, *code),
        Reply::UnknownClass { kind, name, .. } => push_unknown_class(text, *kind, name),
        Reply::NoQuantity { .. } => text.extend_from_slice(b"R16 NO QUANTITY"),
        Reply::NoGroup { .. } => text.extend_from_slice(b"R17 NO STORAGE GROUP"),
        Reply::NoVolume { .. } => text.extend_from_slice(b"R18 NO VOLUME"),
        Reply::NotFound => text.extend_from_slice(b"R19 NOT FOUND"),
        Reply::NoExtend(why) => text.extend_from_slice(why_bytes(*why)),
        Reply::Deck(fault) => push_refused_deck(text, fault.get()),
        Reply::VolumeInUse(volser) => push_both(text, b"R22 VOLUME IN USE ", volser.bytes()),
        Reply::UnknownName => text.extend_from_slice(b"R23 UNKNOWN NAME"),
        Reply::JournalFull => text.extend_from_slice(b"R24 JOURNAL FULL"),
        Reply::PastGrant { granted } => push_counted(text, b"R25 PAST GRANT ", *granted),
        Reply::KeeperFault => text.extend_from_slice(b"F30 KEEPER"),
        Reply::Memory => text.extend_from_slice(b"M31 MEMORY"),
    }
}

fn push_shown(text: &mut Vec<u8>, view: &View) -> Result<(), AllocError>
    ensures { OnOk result (text.new.items ≡ text.old.items ++ reply_text (Reply.Shown view.now)) }
{
    text.extend_from_slice(b"A06 ")?;
    push_view(text, view)
}

fn push_purged(text: &mut Vec<u8>, job: &Name, floor: u32) -> Result<(), AllocError>
    ensures { OnOk result (text.new.items ≡ text.old.items ++ reply_text (Reply.Purged job.now floor)) }
{
    text.extend_from_slice(b"A07 PURGED ")?;
    push_word_and_blank(text, job.bytes())?;
    push_number(text, u64::from(floor))
}

// What stands in the answer where a routine of this kind ended with this code.
fn push_exit(text: &mut Vec<u8>, kind: Kind, code: u16) -> Result<(), AllocError>
    ensures { OnOk result (text.new.items ≡ text.old.items ++ spaced
        (codes "R14 EXIT" ∷ name_of kind ∷ decimal code ∷ [])) }
{
    text.extend_from_slice(b"R14 EXIT ")?;
    push_word_and_blank(text, kind.name())?;
    push_number(text, u64::from(code))
}

// What stands in the answer where a routine of this kind chose this name.
fn push_unknown_class(text: &mut Vec<u8>, kind: Kind, name: &Short) -> Result<(), AllocError>
    ensures { OnOk result (text.new.items ≡ text.old.items ++ spaced
        (codes "R15 UNKNOWN CLASS" ∷ name_of kind ∷ value_text name.now ∷ [])) }
{
    text.extend_from_slice(b"R15 UNKNOWN CLASS ")?;
    push_word_and_blank(text, kind.name())?;
    text.extend_from_slice(value_bytes(name))
}

fn push_refused_deck(text: &mut Vec<u8>, fault: &Fault) -> Result<(), AllocError>
    ensures { OnOk result (text.new.items ≡ text.old.items ++ reply_text (Reply.Deck fault.now)) }
{
    text.extend_from_slice(b"R21 DECK ")?;
    push_fault(text, fault)
}

// Two texts, one behind the other.
fn push_both(text: &mut Vec<u8>, first: &[u8], second: &[u8]) -> Result<(), AllocError>
    ensures { OnOk result (text.new.items ≡ text.old.items ++ (first.now ++ second.now)) }
{
    text.extend_from_slice(first)?;
    text.extend_from_slice(second)
}

fn why_bytes(why: WhyNoExtend) -> &'static [u8]
    ensures { result.now ≡ why_text why }
{
    match why {
        WhyNoExtend::Secondary => b"R20 NO EXTEND SECONDARY",
        WhyNoExtend::Room => b"R20 NO EXTEND ROOM",
    }
}

/// Puts what a DISPLAY shows behind a text, in one line.
pub fn push_view(text: &mut Vec<u8>, view: &View) -> Result<(), AllocError>
    ensures { OnOk result (text.new.items ≡ text.old.items ++ view_text view.now) }
{
    match view {
        View::Group {
            name,
            status,
            volumes,
            capacity,
            free,
        } => {
            push_group(text, name, *status)?;
            push_number_and_blank(text, u64::from(*volumes))?;
            push_number_and_blank(text, *capacity)?;
            push_number(text, *free)
        }
        View::Volume(row) => push_row(text, row),
        View::Set(set) => {
            text.extend_from_slice(b"SET ")?;
            text.extend_from_slice(set.get().dsn.bytes())
        }
    }
}

// The words of a storage group, with a blank behind them.
fn push_group(text: &mut Vec<u8>, name: &Name, status: Status) -> Result<(), AllocError>
    ensures { OnOk result (text.new.items ≡ text.old.items ++
        (codes "STORGRP " ++ (name.now ++ space_byte ∷ (status_text status ++ space_byte ∷ [])))) }
{
    text.extend_from_slice(b"STORGRP ")?;
    push_word_and_blank(text, name.bytes())?;
    push_word_and_blank(text, status_bytes(status))
}

fn push_row(text: &mut Vec<u8>, row: &VolRow) -> Result<(), AllocError>
    ensures { OnOk result (text.new.items ≡ text.old.items ++ view_text (View.Volume row.now)) }
{
    push_volume(text, row)?;
    push_number_and_blank(text, u64::from(row.capacity))?;
    push_number_and_blank(text, u64::from(row.free))?;
    push_number(text, u64::from(row.extents))
}

// The words of a volume, with a blank behind them.
fn push_volume(text: &mut Vec<u8>, row: &VolRow) -> Result<(), AllocError>
    ensures { OnOk result (text.new.items ≡ text.old.items ++
        (codes "VOLUME " ++ (row.now.volser ++ space_byte ∷ (row.now.group ++ space_byte ∷
        (status_text row.now.status ++ space_byte ∷ []))))) }
{
    text.extend_from_slice(b"VOLUME ")?;
    push_word_and_blank(text, row.volser.bytes())?;
    push_word_and_blank(text, row.group.bytes())?;
    push_word_and_blank(text, status_bytes(row.status))
}
