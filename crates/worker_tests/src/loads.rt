// Loads that several workers answer, each checked as one history.
use crate::replaying::is_one_history;
use crate::running::read;
use desk_generator::generate;
use sms_core::Core;
use sms_keeper::{FaultKeeper, MemKeeper};
use sms_script::Script;
use std::alloc::{AllocError, Global};
use std::sync::Wait;
use std::test::Fail;
use std::thread::Threads;

// How many activations stand beside how many allocations for each.
const ACTIVATIONS: u32 = 200;

const ALLOCATIONS: u32 = 50;

// The numbers of workers, and the number of scripts for each.
static WORKERS: [usize; 4] = [2, 3, 5, 16];

const SCRIPTS: u32 = 250;

const DECK: &str = "version = 1
[storclass.SC1]
[storgroup.SG1.volume.VOL001]
device = \"3390-9\"
[routine]
storclass = \"PROC STORCLAS SET &STORCLAS = 'SC1' END\"
storgroup = \"PROC STORGRP SET &STORGRP = 'SG1' END\"
./END
";

// A new core over a keeper in memory.
fn in_memory(alloc: Global) -> Core<MemKeeper> {
    Core::new(alloc, MemKeeper::new(alloc))
}

// A core whose keeper fails some commits.
fn failing(alloc: Global) -> Result<Core<FaultKeeper>, AllocError> {
    let keeper = FaultKeeper::new(alloc, &[2, 3, 7, 8, 20, 33])?;
    Ok(Core::new(alloc, keeper))
}

// Whether so many workers answer the script on a new desk by one history.
fn is_answered<R: Threads + Wait + Sync>(
    alloc: Global,
    rt: &R,
    script: &Script,
    workers: usize,
) -> bool {
    let mut again = in_memory(alloc);
    is_one_history(alloc, rt, script, workers, in_memory(alloc), &mut again)
}

// The same on a desk whose keeper fails.
fn is_told<R: Threads + Wait + Sync>(
    alloc: Global,
    rt: &R,
    script: &Script,
    workers: usize,
) -> bool {
    match failing(alloc) {
        Ok(mut again) => is_told_again(alloc, rt, script, workers, &mut again),
        Err(_) => false,
    }
}

fn is_told_again<R: Threads + Wait + Sync>(
    alloc: Global,
    rt: &R,
    script: &Script,
    workers: usize,
    again: &mut Core<FaultKeeper>,
) -> bool {
    match failing(alloc) {
        Ok(core) => is_one_history(alloc, rt, script, workers, core, again),
        Err(_) => false,
    }
}

fn are_answered<R: Threads + Wait + Sync>(alloc: Global, rt: &R) -> Result<bool, AllocError> {
    let mut good = true;
    for seed in 0..SCRIPTS {
        let script = generate(alloc, seed, 24)?;
        for workers in &WORKERS {
            good &= is_answered(alloc, rt, &script, *workers);
        }
    }
    Ok(good)
}

#[test]
fn generated_scripts_have_one_history(rt: HostRuntime) -> Result<(), Fail> {
    assert!(rt; are_answered(rt.alloc(), &rt)?);
    Ok(())
}

fn are_told<R: Threads + Wait + Sync>(alloc: Global, rt: &R) -> Result<bool, AllocError> {
    let mut good = true;
    for seed in 0..20 {
        let script = generate(alloc, seed, 60)?;
        for workers in &WORKERS {
            good &= is_told(alloc, rt, &script, *workers);
        }
    }
    Ok(good)
}

#[test]
fn a_keeper_that_fails_is_told_by_one_history(rt: HostRuntime) -> Result<(), Fail> {
    assert!(rt; are_told(rt.alloc(), &rt)?);
    Ok(())
}

#[test]
fn many_activations_beside_many_allocations(rt: HostRuntime) -> Result<(), Fail> {
    let mut text = Vec::new(rt.alloc());
    push_live(rt.alloc(), &mut text)?;
    let script = read(rt.alloc(), &text)?;
    assert!(rt; is_answered(rt.alloc(), &rt, &script, 4));
    Ok(())
}

#[test]
fn a_journal_that_fills_up_within_a_phase(rt: HostRuntime) -> Result<(), Fail> {
    let mut text = Vec::new(rt.alloc());
    push_deletions(rt.alloc(), &mut text)?;
    let script = read(rt.alloc(), &text)?;
    assert!(rt; is_answered(rt.alloc(), &rt, &script, 3));
    Ok(())
}

// A phase of more requests than a journal has places, of seven jobs.
fn push_deletions(alloc: Global, text: &mut Vec<u8>) -> Result<(), AllocError> {
    for item in 0..50_020u64 {
        push_deletion(alloc, text, item % 7, item / 7 + 1)?;
    }
    Ok(())
}

fn push_deletion(
    alloc: Global,
    text: &mut Vec<u8>,
    job: u64,
    number: u64,
) -> Result<(), AllocError> {
    let line = format!(in alloc; "JOB{job} {number} DELETE A.B\n")?;
    text.extend_from_slice(line.as_bytes())
}

// A phase of activations, behind each of them some allocations of other jobs.
fn push_live(alloc: Global, text: &mut Vec<u8>) -> Result<(), AllocError> {
    for at in 1..ACTIVATIONS + 1 {
        push_activation(alloc, text, at)?;
        text.extend_from_slice(DECK.as_bytes())?;
        push_allocations(alloc, text, at)?;
    }
    Ok(())
}

fn push_activation(alloc: Global, text: &mut Vec<u8>, at: u32) -> Result<(), AllocError> {
    let line = format!(in alloc; "SMSADMIN {at} ACTIVATE\n")?;
    text.extend_from_slice(line.as_bytes())
}

fn push_allocations(alloc: Global, text: &mut Vec<u8>, at: u32) -> Result<(), AllocError> {
    for item in 0..ALLOCATIONS {
        push_allocation(alloc, text, at, item)?;
    }
    Ok(())
}

fn push_allocation(
    alloc: Global,
    text: &mut Vec<u8>,
    at: u32,
    item: u32,
) -> Result<(), AllocError> {
    let job = item % 9;
    let number = u64::from(at) * 10 + u64::from(item / 9);
    let line = format!(in alloc; "JOB{job} {number} ALLOC A{at}.B{item} SPACE=(TRK,1)\n")?;
    text.extend_from_slice(line.as_bytes())
}
