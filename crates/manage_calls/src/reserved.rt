// The lines that only space management may write.
ghost use Rattle.std.specs.Prelude.{◌≡◌, ◌<◌, ◌^◌, ◌∷◌, [], List, Result, IfOk, Ok, length};
ghost use Rattle.std.specs.List.{list_any};
ghost use Rattle.sms_script.specs.Lines.{lines_of};
ghost use Rattle.sms_script.specs.Script.{IsRefusal};
ghost use Rattle.sms_script.specs.declared.item.Item.{Item as Asked};
ghost use Rattle.sms_script.specs.declared.script_err.ScriptErr.{ScriptErr as Fault};
ghost use Rattle.manage_calls.specs.Inner.LineAlone.{has_reserved, kind_told};
ghost use Rattle.manage_calls.specs.Reserved.{is_reserved, kind_of, purges_manager, reserved_line};

use crate::line_kind::LineKind;
use sms_construct::{Op, Request};
use sms_manage::MANAGER;
use sms_script::{Item, Script, ScriptErr, first_line, is_block_end, read_script};
use std::alloc::{AllocError, Global};

/// The first line of a script, outside its deck blocks, in which the job of space management asks or is purged.
pub fn reserved_line(alloc: Global, bytes: &[u8]) -> Result<Option<u32>, AllocError>
    requires { length bytes.now < 2 ^ 32 }
    ensures { IfOk result (λ line. line ≡ reserved_line bytes.now) }
{
    let mut rest = bytes;
    let mut line: u32 = 0;
    let mut in_block = false;
    while !rest.is_empty() {
        let (first, behind) = first_line(rest);
        line += 1;
        if in_block {
            in_block = !is_block_end(first);
        } else {
            match kind_of_line(alloc, first)? {
                LineKind::Reserved => return Ok(Some(line)),
                LineKind::Opening => in_block = true,
                LineKind::Other => {}
            }
        }
        rest = behind;
    }
    Ok(None)
}

// What a line outside the deck blocks is: a script of this line alone tells it.
fn kind_of_line(alloc: Global, line: &[u8]) -> Result<LineKind, AllocError>
    requires few { length line.now < 2 ^ 32 }
    requires one { lines_of line.now ≡ line.now ∷ [] }
    ensures { IfOk result (λ kind. kind ≡ kind_of line.now) }
{
    match read_script(alloc, line) {
        Ok(script) => Ok(kind_of_script(&script)),
        Err(fault) => kind_of_fault(fault),
    }
}

fn kind_of_script(script: &Script) -> LineKind
    ensures { result ≡ kind_told (Ok script.now) }
{
    if has_reserved(script) {
        LineKind::Reserved
    } else {
        LineKind::Other
    }
}

fn kind_of_fault(fault: ScriptErr) -> Result<LineKind, AllocError>
    ensures { IfOk result (λ kind. (read : Result (List (List Asked)) Fault) → IsRefusal read fault →
        kind ≡ kind_told read) }
{
    match fault {
        ScriptErr::OpenBlock(_) => Ok(LineKind::Opening),
        ScriptErr::BadLine(_) | ScriptErr::TooManyLines(_) => Ok(LineKind::Other),
        ScriptErr::NoMemory => Err(AllocError),
    }
}

// Whether a request of the script is reserved.
fn has_reserved(script: &Script) -> bool
    ensures { result ≡ has_reserved script.now }
{
    script
        .as_slice()
        .iter()
        .any(|phase| has_reserved_item(phase.as_slice()))
}

fn has_reserved_item(items: &[Item]) -> bool
    ensures { result ≡ list_any (λ item. is_reserved item.request) items.now }
{
    items.iter().any(|item| is_reserved(&item.request))
}

// Whether the job of space management asks, or is purged.
fn is_reserved(request: &Request) -> bool
    ensures { result ≡ is_reserved request.now }
{
    request.job.bytes() == MANAGER || purges_manager(&request.op)
}

fn purges_manager(op: &Op) -> bool
    ensures { result ≡ purges_manager op.now }
{
    matches!(op, Op::Purge { job, .. } if job.bytes() == MANAGER)
}
