// Runs of scripts by several workers.
ghost use Rattle.std.specs.Prelude.{◌≤◌};

use desk_workers::run_workers;
use sms_construct::{Answers, Reply};
use sms_core::Core;
use sms_desk::Gate;
use sms_keeper::MemKeeper;
use sms_script::{Script, read_script};
use std::alloc::Global;
use std::sync::Wait;
use std::test::Fail;
use std::thread::Threads;

// The answers to a script on a new desk by so many workers.
pub fn run<R: Threads + Wait + Sync, G: Gate + Sync>(
    alloc: Global,
    rt: &R,
    text: &str,
    workers: usize,
    gate: &G,
) -> Result<Answers, Fail>
    requires { (2 ≤ workers) × (workers ≤ 16) }
{
    let script = read(alloc, text.as_bytes())?;
    let core = Core::new(alloc, MemKeeper::new(alloc));
    let (answers, _core) = run_workers(alloc, rt, &script, core, workers, gate);
    match answers {
        Ok(answers) => Ok(answers),
        Err(_) => Err(Fail::from("no memory")),
    }
}

// Reads the text of a script, which is far from the greatest length.
pub fn read(alloc: Global, text: &[u8]) -> Result<Script, Fail> {
    if text.len() > 16_777_216 {
        return Err(Fail::from("a long script"));
    }
    match read_script(alloc, text) {
        Ok(script) => Ok(script),
        Err(_) => Err(Fail::from("no script")),
    }
}

// The last letter of a granted data set's storage class; 0 for any other reply.
pub fn class_of(reply: &Reply) -> u8 {
    match reply {
        Reply::Granted { set, .. } => set.get().storclas.bytes().last().copied().unwrap_or(0),
        _ => 0,
    }
}
