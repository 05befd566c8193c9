//! What a DISPLAY shows, and what a VARY is done to.
ghost use Rattle.std.specs.Prelude.{◌≡◌, codes};
ghost use Rattle.sms_script.specs.Found.{◌⊳◌};
ghost use Rattle.sms_script.specs.Parts.{in_call};
ghost use Rattle.sms_script.specs.Ops.{action_in, group_of, place_in, set_of, target_in, vary_in, volume_of};
ghost use Rattle.sms_script.specs.Ops.{without_all};

use crate::parts::{before_end, in_call, is_word, place_of};
use dsn_mask::{Dsn, Name, Volser};
use sms_construct::{Action, Op, Target, behind_front};

/// What a DISPLAY shows: SMS,STORGRP(g), SMS,VOLUME(v) or SET(dsn).
pub fn read_target(what: &[u8]) -> Option<Target>
    ensures { result ≡ target_in what.now }
{
    shown_group(what).or(shown_volume(what)).or(shown_set(what))
}

fn shown_group(what: &[u8]) -> Option<Target>
    ensures { result ≡ (in_call (codes "SMS,STORGRP") what.now ⊳ group_of) }
{
    read_group(in_call(b"SMS,STORGRP", what)?)
}

fn shown_volume(what: &[u8]) -> Option<Target>
    ensures { result ≡ (in_call (codes "SMS,VOLUME") what.now ⊳ volume_of) }
{
    read_volume(in_call(b"SMS,VOLUME", what)?)
}

fn shown_set(what: &[u8]) -> Option<Target>
    ensures { result ≡ (in_call (codes "SET") what.now ⊳ set_of) }
{
    read_set(in_call(b"SET", what)?)
}

fn read_group(text: &[u8]) -> Option<Target>
    ensures { result ≡ group_of text.now }
{
    Some(Target::Group(Name::new(text)?))
}

fn read_volume(text: &[u8]) -> Option<Target>
    ensures { result ≡ volume_of text.now }
{
    Some(Target::Volume(Volser::new(text)?))
}

fn read_set(text: &[u8]) -> Option<Target>
    ensures { result ≡ set_of text.now }
{
    Some(Target::Set(Dsn::parse(text).ok()?))
}

/// The status change of SMS,place,action.
pub fn read_vary(what: &[u8]) -> Option<Op>
    ensures { result ≡ vary_in what.now }
{
    let text = behind_front(b"SMS,", what)?;
    let at = place_of(b')', text)?;
    let target = read_place(&text[..at + 1])?;
    let action = read_action(&text[at + 1..])?;
    Some(Op::Vary { target, action })
}

fn read_place(place: &[u8]) -> Option<Target>
    ensures { result ≡ place_in place.now }
{
    varied_group(place).or(varied_volume(place))
}

fn varied_group(place: &[u8]) -> Option<Target>
    ensures { result ≡ (in_call (codes "STORGRP") place.now ⊳ λ inner. group_of (without_all inner)) }
{
    read_group(without_all(in_call(b"STORGRP", place)?))
}

fn varied_volume(place: &[u8]) -> Option<Target>
    ensures { result ≡ (in_call (codes "VOLUME") place.now ⊳ λ inner. volume_of (without_all inner)) }
{
    read_volume(without_all(in_call(b"VOLUME", place)?))
}

// A place may say that it is for all systems.
fn without_all(text: &[u8]) -> &[u8]
    ensures { result.now ≡ without_all text.entry.now }
{
    before_end(b",ALL", text).unwrap_or(text)
}

fn read_action(text: &[u8]) -> Option<Action>
    ensures { result ≡ action_in text.now }
{
    if is_word(text, b",ENABLE") {
        Some(Action::Enable)
    } else if is_word(text, b",DISABLE") {
        Some(Action::Disable)
    } else if is_word(text, b",DISABLE,NEW") {
        Some(Action::DisableNew)
    } else if is_word(text, b",QUIESCE") {
        Some(Action::Quiesce)
    } else if is_word(text, b",QUIESCE,NEW") {
        Some(Action::QuiesceNew)
    } else {
        None
    }
}
