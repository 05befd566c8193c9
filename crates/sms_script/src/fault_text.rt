//! The faults of a deck as text.
ghost use Rattle.std.specs.Prelude.{◌≡◌, ◌++◌, OnOk};
ghost use Rattle.sms_script.specs.FaultText.{fault_text, stage_text, text_fault_text};

use crate::pushing::{push_number_and_blank, push_word_and_blank};
use desk_common::push_number;
use sms_construct::{Fault, Path, Stage, TextFault};
use std::alloc::AllocError;

/// Puts the fault's code and what it shows behind a text.
pub fn push_fault(text: &mut Vec<u8>, fault: &Fault) -> Result<(), AllocError>
    ensures { OnOk result (text.new.items ≡ text.old.items ++ fault_text fault.now) }
{
    match fault {
        Fault::NotBuilt(path) => push_path(text, b"K0 ", path),
        Fault::NotToml => text.extend_from_slice(b"K1"),
        Fault::UnknownKey(path) => push_path(text, b"K2 ", path),
        Fault::Missing(path) => push_path(text, b"K3 ", path),
        Fault::BadValue(path) => push_path(text, b"K4 ", path),
        Fault::BadName(path) => push_path(text, b"K5 ", path),
        Fault::TwoGroups(volser) => {
            text.extend_from_slice(b"K6 ")?;
            text.extend_from_slice(volser.bytes())
        }
        Fault::Routine(kind, fault) => {
            text.extend_from_slice(b"K7 ")?;
            push_word_and_blank(text, kind.name())?;
            push_text_fault(text, fault)
        }
        Fault::Unassigned(kind, name) => {
            text.extend_from_slice(b"K8 ")?;
            push_word_and_blank(text, kind.name())?;
            text.extend_from_slice(name.bytes())
        }
        Fault::TooMany(path) => push_path(text, b"K9 ", path),
    }
}

fn push_path(text: &mut Vec<u8>, code: &[u8], path: &Path) -> Result<(), AllocError>
    ensures { OnOk result (text.new.items ≡ text.old.items ++ (code.now ++ path.now)) }
{
    text.extend_from_slice(code)?;
    text.extend_from_slice(path.bytes())
}

fn push_text_fault(text: &mut Vec<u8>, fault: &TextFault) -> Result<(), AllocError>
    ensures { OnOk result (text.new.items ≡ text.old.items ++ text_fault_text fault.now) }
{
    text.extend_from_slice(stage_bytes(fault.stage))?;
    push_number_and_blank(text, u64::from(fault.number))?;
    push_number(text, u64::from(fault.at))
}

fn stage_bytes(stage: Stage) -> &'static [u8]
    ensures { result.now ≡ stage_text stage }
{
    match stage {
        Stage::Scanner => b"L",
        Stage::Parser => b"P",
        Stage::Checks => b"C",
    }
}
