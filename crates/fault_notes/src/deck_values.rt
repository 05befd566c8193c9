//! What the values of a deck's keys may be.
use crate::deck_table::{DeckTable, last_key};
use sms_construct::read_number;

const NAME: &str =
    "a construct name in quotes: 1 to 8 capitals, digits, #, @ and $, the first no digit";

const SPACE: &str =
    "\"(u,p)\", \"(u,(p))\" or \"(u,(p,s))\" without blanks: u is TRK or CYL, p is 1 to 16777215 and s 0 to 16777215";

const YES_OR_NO: &str = "\"YES\" or \"NO\"";

const TABLE: &str = "a table";

/// What the value of this path's last key may be, for a person (docs/manual/deck.md, "Keys").
pub fn value_allowed(path: &[u8]) -> &'static str {
    let key = last_key(path);
    match DeckTable::of(path) {
        DeckTable::Top => top_value(key),
        DeckTable::Routines => "the text of a routine, in quotes",
        DeckTable::DataClass => data_class_value(key),
        DeckTable::StorageClass => YES_OR_NO,
        DeckTable::ManagementClass => management_class_value(key),
        DeckTable::StorageGroup => storage_group_value(key),
        DeckTable::Volume => volume_value(key),
        DeckTable::Names | DeckTable::Serials | DeckTable::Other => TABLE,
    }
}

fn top_value(key: &[u8]) -> &'static str {
    match key {
        b"version" => "1 or 2",
        b"system" | b"sysplex" => NAME,
        _ => TABLE,
    }
}

fn data_class_value(key: &[u8]) -> &'static str {
    match key {
        b"space" => SPACE,
        b"volcount" => "a number of volumes, 1 to 59",
        _ => "\"OPT\" or \"NO\"",
    }
}

fn management_class_value(key: &[u8]) -> &'static str {
    match key {
        b"expire_after" => "a number of days, 0 to 9999",
        _ => YES_OR_NO,
    }
}

fn storage_group_value(key: &[u8]) -> &'static str {
    match key {
        b"type" => "\"POOL\", the only type there is",
        b"status" => "\"ENABLE\", \"NOTCON\", \"DISALL\", \"DISNEW\", \"QUIALL\" or \"QUINEW\"",
        b"high" => "a number of percent, 1 to 100",
        b"low" => "a number of percent, 0 to that of high, which is 85 where none stands",
        b"overflow" => "true or false, without quotes",
        b"breakpoint" => "a number of cylinders, 0 to 65520",
        _ => TABLE,
    }
}

fn volume_value(key: &[u8]) -> &'static str {
    match key {
        b"device" => "\"3390-3\" or \"3390-9\", or cylinders or tracks in place of device",
        b"cylinders" => "a number, 1 to 65520, or a multiple of 21 from 65541 to 1182006",
        b"tracks" => "a number, 1 to 982800",
        _ => "\"ENABLE\", \"DISALL\", \"DISNEW\", \"QUIALL\" or \"QUINEW\"",
    }
}

/// Whether the bytes are a value that this key of a volume, cylinders or tracks, may have.
pub fn is_size(key: &[u8], bytes: &[u8]) -> bool {
    let Some(number) = read_number(bytes) else {
        return false;
    };
    match key {
        b"cylinders" => {
            (1..=65_520).contains(&number)
                || ((65_541..=1_182_006).contains(&number) && number % 21 == 0)
        }
        b"tracks" => (1..=982_800).contains(&number),
        _ => false,
    }
}
