//! What each fault of a deck means that is told by a path or a name.
use crate::deck_table::{DeckTable, last_key};
use crate::deck_values::{is_size, value_allowed};
use crate::nearest::{listed, nearest};
use crate::showing::shown;
use dsn_mask::{Name, Volser};
use sms_construct::Fault;
use std::alloc::{AllocError, Global};

const NAME_FORM: &str = "a name has 1 to 8 capitals, digits, #, @ and $, the first no digit";

const SERIAL_FORM: &str = "a volume serial has 1 to 6 capitals, digits, #, @ and $";

/// The sentence of a fault that is told by a path or a name; `written` is the value that the deck gives there, as far
/// as it is known (docs/manual/tool.md, "What a fault means").
pub fn deck_sentence(
    alloc: Global,
    fault: &Fault,
    written: Option<&[u8]>,
) -> Result<String, AllocError> {
    match fault {
        Fault::NotBuilt(path) => around(alloc, "what ", path.bytes(), " asks for isn't built"),
        Fault::UnknownKey(path) => unknown_sentence(alloc, path.bytes()),
        Fault::Missing(path) => missing_sentence(alloc, path.bytes()),
        Fault::BadValue(path) => value_sentence(alloc, path.bytes(), written),
        Fault::BadName(path) => name_sentence(alloc, path.bytes()),
        Fault::TooMany(path) => limit_sentence(alloc, path.bytes()),
        Fault::TwoGroups(volser) => {
            let after = " stands in two storage groups";
            around(alloc, "the volume ", volser.bytes(), after)
        }
        Fault::NotToml | Fault::Routine(..) | Fault::Unassigned(..) => Ok(String::new(alloc)),
    }
}

/// The bytes as text, between two others.
pub fn around(
    alloc: Global,
    before: &str,
    bytes: &[u8],
    after: &str,
) -> Result<String, AllocError> {
    let word = shown(alloc, bytes)?;
    format!(in alloc; "{before}{word}{after}")
}

// A key that a deck doesn't have there, and the one that was probably meant.
fn unknown_sentence(alloc: Global, path: &[u8]) -> Result<String, AllocError> {
    let hint = key_hint(alloc, path)?;
    around(alloc, "a deck has no key ", path, &hint)
}

fn key_hint(alloc: Global, path: &[u8]) -> Result<String, AllocError> {
    let table = DeckTable::of(path);
    if table == DeckTable::StorageClass {
        let hint = "; a storage class has multi_tier alone, and that in version 2 of a deck";
        return String::from_str(alloc, hint);
    }
    let keys = table.keys();
    let key = shown(alloc, last_key(path))?;
    match nearest(alloc, &key, keys)? {
        Some(near) => format!(in alloc; "; near to it is {near}"),
        None if keys.is_empty() => Ok(String::new(alloc)),
        None => {
            let keys = listed(alloc, keys, " and ")?;
            format!(in alloc; "; the keys there are {keys}")
        }
    }
}

// A required key that is missing; of a volume its size, which three keys may give.
fn missing_sentence(alloc: Global, path: &[u8]) -> Result<String, AllocError> {
    let rest = if path.ends_with(b".device") {
        " is missing, or tracks or cylinders in its place"
    } else {
        " is missing"
    };
    around(alloc, "the key ", path, rest)
}

// A wrong value: what may stand there, and what does; or a second size of a volume.
fn value_sentence(
    alloc: Global,
    path: &[u8],
    written: Option<&[u8]>,
) -> Result<String, AllocError> {
    if written.is_some_and(|bytes| is_size(last_key(path), bytes)) {
        let rest = " is a second size of its volume, which has one of device, cylinders and tracks";
        return around(alloc, "the value of ", path, rest);
    }
    let allowed = value_allowed(path);
    let found = match written {
        Some(bytes) => around(alloc, ", not ", bytes, "")?,
        None => String::new(alloc),
    };
    let rest = format!(in alloc; " is wrong; it may be {allowed}{found}")?;
    around(alloc, "the value of ", path, &rest)
}

// A key that is no name of its kind, and the form of such names.
fn name_sentence(alloc: Global, path: &[u8]) -> Result<String, AllocError> {
    let hint = name_hint(alloc, path)?;
    let rest = format!(in alloc; ", the last key is no name of its kind; {hint}")?;
    around(alloc, "in ", path, &rest)
}

fn name_hint(alloc: Global, path: &[u8]) -> Result<String, AllocError> {
    let is_serial = DeckTable::of(path) == DeckTable::Serials;
    let mut key = Vec::from_slice(alloc, last_key(path))?;
    key.make_ascii_uppercase();
    let fits = if is_serial {
        Volser::new(&key).is_some()
    } else {
        Name::new(&key).is_some()
    };
    if fits && !holds_full_stop(path, is_serial) {
        around(alloc, "in capitals, ", &key, ", it is one")
    } else {
        String::from_str(alloc, if is_serial { SERIAL_FORM } else { NAME_FORM })
    }
}

// Whether a key of the path has a full stop in itself: one stands behind the table's name, and before a volume's serial
// three.
fn holds_full_stop(path: &[u8], is_serial: bool) -> bool {
    let count = path.iter().filter(|byte| **byte == b'.').count();
    count > if is_serial { 3 } else { 1 }
}

fn limit_sentence(alloc: Global, path: &[u8]) -> Result<String, AllocError> {
    match path {
        b"deck" => String::from_str(alloc, "the deck has more than 262144 bytes"),
        b"volume" => String::from_str(alloc, "the deck has more than 1024 volumes"),
        b"storgroup" => String::from_str(alloc, "the deck has more than 64 storage groups"),
        b"dataclass" | b"storclass" | b"mgmtclass" => {
            around(alloc, "in ", path, " there are more than 256 classes")
        }
        _ if path.ends_with(b".volume") => {
            around(alloc, "in ", path, " there are more than 256 volumes")
        }
        _ => around(alloc, "the text of ", path, " has more than 65536 bytes"),
    }
}
