// What single values of a deck mean.
ghost use Rattle.std.specs.Prelude.{◌≡◌, is_some};
ghost use Rattle.toml.specs.View.{view};
ghost use Rattle.sms_construct.specs.Eattr.{eattrs};
ghost use Rattle.deck_meaning.specs.Values.{are_whole, cylinders_in, devices, group_statuses, integer_in};
ghost use Rattle.deck_meaning.specs.Values.{meaning_in, name_in, pool, space_in, volume_statuses, word_in, yes_or_no};

use deck_meaning::{MANAGED_CYLINDERS, MAX_CYLINDERS};
use desk_common::MAX_TRACK_MANAGED;
use dsn_mask::Name;
use sms_construct::{Eattr, Space, Status, read_space};
use toml::Value;

/// The integer of the range, if the value is one.
pub fn integer_in(value: &Value, least: u32, most: u32) -> Option<u32>
    ensures { result ≡ integer_in least most (view value.now) }
{
    match value.as_integer() {
        Some(number) => {
            if number >= i64::from(least) && number <= i64::from(most) {
                u32::try_from(number).ok()
            } else {
                None
            }
        }
        None => None,
    }
}

// Whether so many cylinders are track-managed, or with what is past them whole units.
fn are_whole(cylinders: u32) -> bool
    ensures { result ≡ are_whole cylinders }
{
    cylinders <= MAX_TRACK_MANAGED || cylinders % MANAGED_CYLINDERS == 0
}

/// The cylinders of a volume, if the value is a number that it may have.
pub fn cylinders_in(value: &Value) -> Option<u32>
    ensures { result ≡ cylinders_in (view value.now) }
{
    let cylinders = integer_in(value, 1, MAX_CYLINDERS)?;
    if are_whole(cylinders) {
        Some(cylinders)
    } else {
        None
    }
}

/// The construct name, if the value is one.
pub fn name_in(value: &Value) -> Option<Name>
    ensures { result ≡ name_in (view value.now) }
{
    match value.as_str() {
        Some(text) => Name::new(text.as_bytes()),
        None => None,
    }
}

/// The space, if the value is the text of one.
pub fn space_in(value: &Value) -> Option<Space>
    ensures { result ≡ space_in (view value.now) }
{
    match value.as_str() {
        Some(text) => read_space(text.as_bytes()),
        None => None,
    }
}

/// Whether the value is the type of a pool storage group.
pub fn is_pool(value: &Value) -> bool
    ensures { result ≡ is_some (word_in pool (view value.now)) }
{
    match value.as_str() {
        Some(text) => text == "POOL",
        None => false,
    }
}

/// The status of a storage group, if the value is one.
pub fn group_status_in(value: &Value) -> Option<Status>
    ensures { result ≡ word_in group_statuses (view value.now) }
{
    match value.as_str() {
        Some(text) => group_status(text),
        None => None,
    }
}

fn group_status(text: &str) -> Option<Status>
    ensures { result ≡ meaning_in group_statuses text.now }
{
    if text == "NOTCON" {
        Some(Status::NotCon)
    } else {
        volume_status(text)
    }
}

/// The status of a volume, if the value is one.
pub fn volume_status_in(value: &Value) -> Option<Status>
    ensures { result ≡ word_in volume_statuses (view value.now) }
{
    match value.as_str() {
        Some(text) => volume_status(text),
        None => None,
    }
}

fn volume_status(text: &str) -> Option<Status>
    ensures { result ≡ meaning_in volume_statuses text.now }
{
    if text == "ENABLE" {
        Some(Status::Enable)
    } else if text == "DISALL" {
        Some(Status::DisAll)
    } else if text == "DISNEW" {
        Some(Status::DisNew)
    } else if text == "QUIALL" {
        Some(Status::QuiAll)
    } else if text == "QUINEW" {
        Some(Status::QuiNew)
    } else {
        None
    }
}

/// The tracks of a device, if the value is one.
pub fn device_in(value: &Value) -> Option<u32>
    ensures { result ≡ word_in devices (view value.now) }
{
    match value.as_str() {
        Some(text) => device(text),
        None => None,
    }
}

fn device(text: &str) -> Option<u32>
    ensures { result ≡ meaning_in devices text.now }
{
    if text == "3390-3" {
        Some(50_085)
    } else if text == "3390-9" {
        Some(150_255)
    } else {
        None
    }
}

/// Yes or no, if the value says one of them.
pub fn yes_or_no_in(value: &Value) -> Option<bool>
    ensures { result ≡ word_in yes_or_no (view value.now) }
{
    match value.as_str() {
        Some(text) => yes_or_no(text),
        None => None,
    }
}

fn yes_or_no(text: &str) -> Option<bool>
    ensures { result ≡ meaning_in yes_or_no text.now }
{
    if text == "YES" {
        Some(true)
    } else if text == "NO" {
        Some(false)
    } else {
        None
    }
}

/// Whether data sets may lie on cylinder-managed space, if the value says so.
pub fn eattr_in(value: &Value) -> Option<Eattr>
    ensures { result ≡ word_in eattrs (view value.now) }
{
    match value.as_str() {
        Some(text) => eattr(text),
        None => None,
    }
}

fn eattr(text: &str) -> Option<Eattr>
    ensures { result ≡ meaning_in eattrs text.now }
{
    if text == "OPT" {
        Some(Eattr::Opt)
    } else if text == "NO" {
        Some(Eattr::No)
    } else {
        None
    }
}
