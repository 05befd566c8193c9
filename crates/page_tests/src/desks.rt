//! A desk whose pages are shown.
use acs_tree::Slate;
use http_talk::Clerk;
use page_clerk::PageClerk;
use sms_core::Core;
use sms_keeper::FaultKeeper;
use sms_script::{Item, Script, read_script};
use std::alloc::{AllocError, Global};
use std::test::Fail;

// No script of a test is longer.
const LONGEST: usize = 1_000_000;

/// A clerk of a new desk that answered the requests of a script.
pub fn clerk_behind(alloc: Global, script: &str) -> Result<PageClerk<FaultKeeper>, Fail> {
    let script = script_of(alloc, script.as_bytes())?;
    let mut clerk = new_clerk(alloc)?;
    ask(&mut clerk, items_of(&script)?)?;
    Ok(clerk)
}

fn script_of(alloc: Global, text: &[u8]) -> Result<Script, Fail> {
    if text.len() > LONGEST {
        return Err(Fail::from("length"));
    }
    match read_script(alloc, text) {
        Ok(script) => Ok(script),
        Err(_) => Err(Fail::from("script")),
    }
}

fn new_clerk(alloc: Global) -> Result<PageClerk<FaultKeeper>, AllocError> {
    let core = Core::new(alloc, FaultKeeper::new(alloc, &[])?);
    Ok(PageClerk::new(alloc, core, Slate::new(alloc)?))
}

fn ask(clerk: &mut PageClerk<FaultKeeper>, items: &[Item]) -> Result<(), AllocError> {
    for item in items {
        let _answer = clerk.handle(&item.request)?;
    }
    Ok(())
}

// The items of a script of one phase.
fn items_of(script: &Script) -> Result<&[Item], Fail> {
    match script.as_slice() {
        [phase] => Ok(phase.as_slice()),
        _ => Err(Fail::from("phases")),
    }
}
