// Reading a script that a day of space management may follow.
ghost use Rattle.std.specs.Prelude.{◌≡◌, ◌<◌, ◌^◌, true, length, Ok, IfOk, IfErr};
ghost use Rattle.sms_script.specs.Script.{IsRefusal};
ghost use Rattle.manage_calls.specs.Reserved.{are_free, earlier, managed_script_of};

use crate::reserved::reserved_line;
use sms_script::{Script, ScriptErr, read_script};
use std::alloc::Global;

/// The script that the bytes write, in which the job of space management neither asks nor is purged, or its first
/// fault (docs/manual/management.md).
pub fn read_managed(alloc: Global, bytes: &[u8]) -> Result<Script, ScriptErr>
    requires { length bytes.now < 2 ^ 32 }
    ensures script { IfOk result (λ phases. managed_script_of bytes.now ≡ Ok phases) }
    ensures free { IfOk result (λ phases. are_free phases ≡ true) }
    ensures refused { IfErr result (IsRefusal (managed_script_of bytes.now)) }
{
    let Ok(reserved) = reserved_line(alloc, bytes) else {
        return Err(ScriptErr::NoMemory);
    };
    let script = read_script(alloc, bytes);
    match (script, reserved) {
        (script, None) => script,
        (Ok(_), Some(line)) => Err(ScriptErr::BadLine(line)),
        (Err(fault), Some(line)) => Err(earlier(line, fault)),
    }
}

// The fault of the smaller line, and of a reserved line where both are one.
fn earlier(line: u32, fault: ScriptErr) -> ScriptErr
    ensures { result ≡ earlier line fault }
{
    match fault {
        ScriptErr::NoMemory => ScriptErr::NoMemory,
        ScriptErr::BadLine(other) if line <= other => ScriptErr::BadLine(line),
        ScriptErr::OpenBlock(other) if line <= other => ScriptErr::BadLine(line),
        ScriptErr::TooManyLines(other) if line <= other => ScriptErr::BadLine(line),
        fault => fault,
    }
}
