//! What makes a line of a script no command.
use crate::command_line::CommandLine;
use crate::keys::front_of;
use crate::misfit::Misfit;
use crate::operand_values::value_wanted;
use crate::slot::{Slot, is_op, is_request_number};
use desk_common::MAX_LINE;
use dsn_mask::Name;
use sms_script::{is_key, read_op};
use std::alloc::{AllocError, Global};

const JOB: &str =
    "SYNC alone, or the name of a job: 1 to 8 letters, digits, #, @ and $, the first no digit, \
    and then a space (a tab is none)";

const NUMBER: &str = "a request number, 1 to 4294967295";

const VERBS: &str = "ALLOC, EXTEND, DELETE, RELEASE, USED or DISPLAY";

const ADMIN_VERBS: &str = "ACTIVATE, VARY, PURGE or DISPLAY, which SMSADMIN asks";

const KEYS: &str =
    "an operand KEY=value, with one of the keys of ALLOC, as SPACE, STORCLAS, VOL or RETPD";

const ONCE: &str = "another operand, since this key stands before";

/// Where a line without its line end, which is no command, stops being one.
pub fn misfit_of(alloc: Global, line: &[u8]) -> Result<Misfit, AllocError> {
    if line.len() > MAX_LINE {
        return Ok(Misfit {
            at: MAX_LINE,
            wanted: "the end of the line, which has 4096 bytes at most",
        });
    }
    let line = CommandLine::new(alloc, line)?;
    if Name::new(line.word(0)).is_none() {
        return Ok(line.misfit(0, JOB));
    }
    if !is_request_number(line.word(1)) {
        return Ok(line.misfit(1, NUMBER));
    }
    verb_misfit(alloc, &line)
}

// Where a line stops being a command behind its request number.
fn verb_misfit(alloc: Global, line: &CommandLine) -> Result<Misfit, AllocError> {
    let is_admin = line.word(0) == b"SMSADMIN".as_slice();
    let slots = if is_admin {
        admin_slots(line.word(2))
    } else {
        job_slots(line.word(2))
    };
    match slots {
        Some((first, second)) => slot_misfit(alloc, line, first, second),
        None if is_admin => Ok(line.misfit(2, ADMIN_VERBS)),
        None => Ok(line.misfit(2, VERBS)),
    }
}

// What stands behind a verb of the administrator.
fn admin_slots(verb: &[u8]) -> Option<(Slot, Slot)> {
    match verb {
        b"ACTIVATE" => Some((Slot::End, Slot::End)),
        b"VARY" | b"V" => Some((Slot::Changed, Slot::End)),
        b"PURGE" => Some((Slot::Job, Slot::Floor)),
        b"DISPLAY" | b"D" => Some((Slot::Shown, Slot::End)),
        _ => None,
    }
}

// What stands behind a verb of another job.
fn job_slots(verb: &[u8]) -> Option<(Slot, Slot)> {
    match verb {
        b"ALLOC" => Some((Slot::Set, Slot::Operands)),
        b"EXTEND" | b"DELETE" | b"RELEASE" => Some((Slot::Set, Slot::End)),
        b"USED" => Some((Slot::Set, Slot::Tracks)),
        b"DISPLAY" | b"D" => Some((Slot::Shown, Slot::End)),
        _ => None,
    }
}

// Where a line stops being a command behind its verb.
fn slot_misfit(
    alloc: Global,
    line: &CommandLine,
    first: Slot,
    second: Slot,
) -> Result<Misfit, AllocError> {
    if !first.fits(alloc, line.word(3))? {
        return Ok(line.misfit(3, first.wanted()));
    }
    match second {
        Slot::Operands => operands_misfit(alloc, line),
        _ if second.fits(alloc, line.word(4))? => Ok(line.misfit(5, Slot::End.wanted())),
        _ => Ok(line.misfit(4, second.wanted())),
    }
}

// The first operand of an ALLOC with which those up to it aren't as asked.
fn operands_misfit(alloc: Global, line: &CommandLine) -> Result<Misfit, AllocError> {
    let mut text = b"ALLOC A".to_vec(alloc)?;
    for number in 4..line.count() {
        text.push(b' ')?;
        text.extend_from_slice(line.word(number))?;
        if read_op(alloc, text.as_mut_slice(), false)?.is_none() {
            return operand_misfit(alloc, line, number);
        }
    }
    Ok(line.misfit(line.count(), Slot::End.wanted()))
}

// Where the operand stops being one that may stand there.
fn operand_misfit(alloc: Global, line: &CommandLine, number: usize) -> Result<Misfit, AllocError> {
    let word = line.word(number);
    let key = front_of(word, b'=');
    if key.len() == word.len() || !is_key(key) {
        return Ok(line.misfit(number, KEYS));
    }
    if is_op(alloc, b"ALLOC A ", word, false)? {
        return Ok(line.misfit(number, ONCE));
    }
    let behind = key.len().saturating_add(1);
    Ok(Misfit {
        at: line.offset(number).saturating_add(behind),
        wanted: value_wanted(key),
    })
}
