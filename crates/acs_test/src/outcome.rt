//! What a case comes to.
ghost use Rattle.std.specs.Prelude.{◌≡◌, ◌↔◌, ◌++◌, IsTrue, OnOk};
ghost use Rattle.acs_test.specs.Listing.{classes_for, outcome_line, outcome_lines, written_text};
ghost use Rattle.sms_outcomes.specs.Outcomes.{classes_made};

use crate::case::Case;
use acs_tree::{Kind, Line, Slate, Values};
use deck_meaning::Config;
use dsn_mask::Short;
use sms_classes::{Classified, classify};
use sms_construct::{Stop, Trace};
use sms_simulation::{push_outcome, push_written};
use std::alloc::{AllocError, Global};

/// What a case comes to under a configuration; what the routines wrote is on the slate afterwards.
pub fn classified(config: &Config, case: &Case, slate: &mut Slate) -> Classified
    ensures { classes_made result slate.new ≡ classes_for config.now case.now }
{
    classify(config, &case.job, case.alloc.get(), slate)
}

/// Whether two classifications come to the same: their values, what was written, and how they end.
pub fn are_same(one: &Classified, written: &Slate, other: &Classified, others: &Slate) -> bool
    ensures { IsTrue result ↔ (classes_made one.now written.now ≡ classes_made other.now others.now) }
{
    is_same_end(one, other) && are_same_lines(written, others)
}

// Whether values and end are equal.
fn is_same_end(one: &Classified, other: &Classified) -> bool
    ensures { IsTrue result ↔ (one.now ≡ other.now) }
{
    are_same_values(&one.values, &other.values) && is_same_stop(&one.stop, &other.stop)
}

fn are_same_values(one: &Values, other: &Values) -> bool
    ensures { IsTrue result ↔ (one.now ≡ other.now) }
{
    one.dataclas == other.dataclas
        && one.storclas == other.storclas
        && one.mgmtclas == other.mgmtclas
        && one.groups.equals(&other.groups)
}

fn is_same_stop(one: &Stop, other: &Stop) -> bool
    ensures { IsTrue result ↔ (one.now ≡ other.now) }
{
    match one {
        Stop::Done => matches!(other, Stop::Done),
        Stop::Unmanaged => matches!(other, Stop::Unmanaged),
        Stop::Exit { kind, code } => is_exit(other, *kind, *code),
        Stop::Unknown { kind, name } => is_unknown(other, *kind, name),
        Stop::NoGroup => matches!(other, Stop::NoGroup),
    }
}

fn is_exit(stop: &Stop, kind: Kind, code: u16) -> bool
    ensures { IsTrue result ↔ (Stop.Exit kind code ≡ stop.now) }
{
    match stop {
        Stop::Exit {
            kind: other,
            code: others,
        } => kind == *other && code == *others,
        _ => false,
    }
}

fn is_unknown(stop: &Stop, kind: Kind, name: &Short) -> bool
    ensures { IsTrue result ↔ (Stop.Unknown kind name.now ≡ stop.now) }
{
    match stop {
        Stop::Unknown {
            kind: other,
            name: others,
        } => kind == *other && name == others,
        _ => false,
    }
}

fn are_same_lines(one: &Slate, other: &Slate) -> bool
    ensures { IsTrue result ↔ (one.now ≡ other.now) }
{
    are_lines(one.lines(), other.lines()) && are_same_counts(one, other)
}

fn are_lines(one: &[Line], other: &[Line]) -> bool
    ensures { IsTrue result ↔ (one.now ≡ other.now) }
{
    one == other
}

// Whether each kind of routine wrote as many further lines.
fn are_same_counts(one: &Slate, other: &Slate) -> bool
    ensures { IsTrue result ↔ (one.now.more ≡ other.now.more) }
{
    one.more(Kind::DataClas) == other.more(Kind::DataClas)
        && one.more(Kind::StorClas) == other.more(Kind::StorClas)
        && one.more(Kind::MgmtClas) == other.more(Kind::MgmtClas)
        && one.more(Kind::StorGrp) == other.more(Kind::StorGrp)
}

/// Puts an outcome behind a text, and what the routines wrote, each line behind this front.
pub fn push_outcome_lines(
    alloc: Global,
    text: &mut Vec<u8>,
    front: &[u8],
    made: &Classified,
    written: &Slate,
) -> Result<(), AllocError>
    ensures { OnOk result (text.new.items ≡ text.old.items ++ outcome_lines front.now
        (classes_made made.now written.now)) }
{
    push_outcome_line(text, made)?;
    push_slate(alloc, text, front, written)?;
    Ok(())
}

fn push_outcome_line(text: &mut Vec<u8>, made: &Classified) -> Result<(), AllocError>
    ensures { OnOk result (text.new.items ≡ text.old.items ++ outcome_line made.now.stop made.now.values) }
{
    push_outcome(text, made.stop, &made.values)?;
    text.extend_from_slice(b"\n")
}

fn push_slate(
    alloc: Global,
    text: &mut Vec<u8>,
    front: &[u8],
    written: &Slate,
) -> Result<(), AllocError>
    ensures { OnOk result (text.new.items ≡ text.old.items ++ written_text front.now written.now) }
{
    let trace = Trace::of(alloc, written)?;
    push_written(alloc, text, front, &trace)?;
    Ok(())
}
