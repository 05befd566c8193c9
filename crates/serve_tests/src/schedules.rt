//! Schedules of connections that a store in memory is served to: each takes what a desk answers that is asked in the
//! journal's order.
use crate::draws::Draws;
use crate::heard::{ELSEWHERE, HEALTH};
use crate::replay::{are_answered, begun};
use ready_wires::{Happening, MemReadiness, MemWire, Turn};
use smsd_serving::keep_serving;
use std::alloc::{AllocError, Global};
use std::test::Fail;

const PORT: u16 = 8080;

// So many connections come in a schedule, of which so many are served at once at least.
const CONNECTIONS: u64 = 20;

const FEWEST: usize = 16;

// In one of so many schedules a connection asks for so many activations at once.
const RARE: u64 = 50;

const ACTIVATIONS: u64 = 330;

const DESK: &str = "Host: 127.0.0.1:8080\r\nContent-Length: 0\r\n\r\n";

const LAST: &str = "Host: 127.0.0.1:8080\r\nConnection: close\r\n\r\n";

const SPACE: &str = "Host: 127.0.0.1:8080\r\nContent-Length: 19\r\n\r\n{\"SPACE\":\"(TRK,7)\"}";

// What a connection asks with this number.
fn push_asked(
    alloc: Global,
    text: &mut String,
    draws: &mut Draws,
    who: u64,
    number: u64,
) -> Result<(), AllocError> {
    let other = draws.below(CONNECTIONS);
    let (operation, rest) = match draws.below(24) {
        0..=7 => (format!(in alloc; "alloc/A.J{who}")?, SPACE),
        8..=11 => (format!(in alloc; "extend/A.J{other}")?, DESK),
        12..=13 => (format!(in alloc; "delete/A.J{other}")?, DESK),
        14..=18 => (format!(in alloc; "display/volume/VOL001")?, DESK),
        19..=21 => return text.push_str(HEALTH),
        22 => return text.push_str(ELSEWHERE),
        _ => (format!(in alloc; "display/set/A.J{other}")?, LAST),
    };
    let line = format!(in alloc; "POST /job/J{who}/{number}/{operation} HTTP/1.1\r\n")?;
    text.push_str(&line)?;
    text.push_str(rest)
}

// All that a connection asks, the last perhaps not whole or no message.
fn asked_by(alloc: Global, draws: &mut Draws, who: u64) -> Result<Vec<u8>, AllocError> {
    let mut text = String::new(alloc);
    for number in 1..draws.below(6).saturating_add(2) {
        push_asked(alloc, &mut text, draws, who, number)?;
    }
    text.push_str(draws.one_of(&["", "", "POST /job", "NONE\r\n\r\n"]))?;
    Ok(text.into_bytes())
}

// Activations, one behind the other.
fn activations(alloc: Global) -> Result<Vec<u8>, AllocError> {
    let mut text = String::new(alloc);
    for number in 2..2 + ACTIVATIONS {
        let line = format!(in alloc; "POST /admin/{number}/activate HTTP/1.1\r\n")?;
        text.push_str(&line)?;
        text.push_str(DESK)?;
    }
    Ok(text.into_bytes())
}

// What calls of a connection come to, one of them perhaps a failure.
fn turns(alloc: Global, draws: &mut Draws, fails: bool) -> Result<Vec<Turn>, AllocError> {
    let mut turns = Vec::new(alloc);
    for _ in 0..draws.below(16) {
        let turn = match draws.below(4) {
            0 => Turn::Waits,
            _ => Turn::Takes(draws.size(400)),
        };
        turns.push(turn)?;
    }
    if fails {
        turns.push(Turn::Fails)?;
    }
    Ok(turns)
}

// A connection that asks this; it has room for what it is answered.
fn wire(
    alloc: Global,
    draws: &mut Draws,
    bytes: Vec<u8>,
    fails: bool,
) -> Result<MemWire, AllocError> {
    let room = vec![in alloc; 0; bytes.len().saturating_mul(4).saturating_add(4_096)]?;
    let reads = turns(alloc, draws, false)?;
    let writes = turns(alloc, draws, fails)?;
    Ok(MemWire::new(bytes, reads, room, writes))
}

// The events of a schedule. In half of them a call of one connection fails, or one is told of as idle.
fn events(alloc: Global, draws: &mut Draws, seed: u64) -> Result<MemReadiness, AllocError> {
    let mut script = Vec::new(alloc);
    for who in 0..CONNECTIONS {
        let bytes = if who == 3 && is_rare(seed) {
            activations(alloc)?
        } else {
            asked_by(alloc, draws, who)?
        };
        let fails = who == 7 && seed % 4 == 1;
        script.push(Happening::Came(wire(alloc, draws, bytes, fails)?))?;
        push_ready(draws, &mut script)?;
        if who == 15 && seed % 4 == 3 {
            script.push(Happening::Idle(draws.size(CONNECTIONS)))?;
        }
    }
    Ok(MemReadiness::new(alloc, script, Vec::new(alloc)))
}

// Tells of some connections as ready, of which some may be none.
fn push_ready(draws: &mut Draws, script: &mut Vec<Happening>) -> Result<(), AllocError> {
    for _ in 0..draws.below(4) {
        script.push(Happening::Ready(draws.size(CONNECTIONS)))?;
    }
    Ok(())
}

// Whether one of the connections asks for many activations.
fn is_rare(seed: u64) -> bool {
    seed % RARE == 0
}

// The commits that fail: two where none asks for many activations.
fn failing(draws: &mut Draws, seed: u64) -> [u64; 2] {
    if is_rare(seed) {
        return [u64::MAX; 2];
    }
    [
        draws.below(40).saturating_add(2),
        draws.below(40).saturating_add(2),
    ]
}

// Whether each connection of a schedule takes what a desk answers.
fn is_answered(alloc: Global, seed: u64) -> Result<bool, AllocError> {
    let mut draws = Draws::new(seed);
    let fails = failing(&mut draws, seed);
    let mut poller = events(alloc, &mut draws, seed)?;
    let most = draws.size(8).saturating_add(FEWEST);
    let keeper = begun(alloc, &fails)?;
    let desk = begun(alloc, &fails)?;
    match keep_serving(alloc, PORT, &mut poller, keeper, most, u64::MAX) {
        Ok(_) => are_answered(alloc, desk, is_rare(seed), poller.back()),
        Err(_) => Ok(false),
    }
}

#[test]
fn each_connection_takes_its_answers(rt: HostRuntime) -> Result<(), Fail> {
    let alloc = rt.alloc();
    for seed in 0..1_000 {
        assert!(rt; is_answered(alloc, seed)?, "at {seed}");
    }
    Ok(())
}
