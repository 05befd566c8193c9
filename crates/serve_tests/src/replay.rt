//! A desk that is asked what connections asked, in the journal's order.
use crate::heard::{Asked, Heard, asked_at};
use acs_tree::Slate;
use http_answer::push_answer;
use http_head::Routes;
use http_message::{Next, read_message};
use page_text::push_said_refusal;
use ready_wires::MemWire;
use sms_construct::Request;
use sms_core::{Core, Work};
use sms_keeper::FaultKeeper;
use sms_open::reopen_behind;
use std::alloc::{AllocError, Global};

// The activation that a store begins with, which has the first place.
const DECK: &[u8] = b"POST /admin/1/activate HTTP/1.1\r\nContent-Length: 187\r\n\r\n\
    version = 1\n[storclass.SC1]\n[storgroup.SG1.volume.VOL001]\ntracks = 100\n[routine]\n\
    storclass = \"PROC STORCLAS SET &STORCLAS = 'SC1' END\"\n\
    storgroup = \"PROC STORGRP SET &STORGRP = 'SG1' END\"\n";

// Behind so many requests the desk goes on from its tables where its journal is to fill.
const OFTEN: u64 = 90;

// No schedule has so many requests.
const MOST: u64 = 10_000;

/// A store that was activated, whose commits with these numbers fail; the activation's is 1.
pub fn begun(alloc: Global, fails: &[u64]) -> Result<FaultKeeper, AllocError> {
    let keeper = FaultKeeper::new(alloc, fails)?;
    let mut desk = Desk::behind(alloc, keeper, 0)?;
    if let Next::Message { request, .. } = read_message(alloc, &Routes::new(alloc)?, DECK)? {
        desk.core.step(&request, Work::Nothing, &mut desk.slate);
    }
    Ok(desk.core.into_parts().0)
}

/// A desk and its slate.
#[derive(Drop)]
pub struct Desk {
    core: Core<FaultKeeper>,
    slate: Slate,
}

impl Desk {
    /// The desk that goes on from the tables of the keeper, and behind this place.
    pub fn behind(alloc: Global, keeper: FaultKeeper, place: u64) -> Result<Self, AllocError> {
        let slate = Slate::new(alloc)?;
        match reopen_behind(alloc, keeper, place) {
            Ok(core) => Ok(Desk { core, slate }),
            Err(_) => Err(AllocError),
        }
    }

    // The bytes of the answer.
    fn answer(
        &mut self,
        alloc: Global,
        request: &Request,
        closes: bool,
    ) -> Result<Vec<u8>, AllocError> {
        let answer = self.core.step(request, Work::Nothing, &mut self.slate);
        let mut text = Vec::new(alloc);
        push_answer(alloc, &mut text, &answer, closes)?;
        Ok(text)
    }

    // This desk, or one that goes on from its tables, and behind its last place.
    fn kept(self, alloc: Global, renewed: bool) -> Result<Self, AllocError> {
        if !renewed {
            return Ok(self);
        }
        let place = self.core.last_place();
        let (keeper, _) = self.core.into_parts();
        Desk::behind(alloc, keeper, place)
    }
}

/// Whether each of the connections took what a desk answers that is asked in the journal's order. One at most may have
/// taken a front of it. Where the desk's journal is to fill, it goes on from its tables often.
pub fn are_answered(
    alloc: Global,
    keeper: FaultKeeper,
    fills: bool,
    wires: &[MemWire],
) -> Result<bool, AllocError> {
    let routes = Routes::new(alloc)?;
    let mut desk = Desk::behind(alloc, keeper, 0)?;
    let mut all = Vec::new(alloc);
    for wire in wires {
        if !wire.given().is_empty() {
            let mut heard = Heard::new(wire.given(), wire.taken());
            heard.settle(alloc, &routes)?;
            all.push(heard)?;
        } else if !is_front_of_away(alloc, wire.taken())? {
            return Ok(false);
        }
    }
    for place in 2..MOST {
        desk = desk.kept(alloc, fills && place % OFTEN == 0)?;
        if !answer_next(alloc, &routes, &mut desk, &mut all, place)? {
            break;
        }
    }
    let cut = all.iter().filter(|heard| heard.is_cut()).count();
    Ok(cut < 2 && all.iter().all(|heard| heard.is_done()))
}

// Whether it is a front of what one is told that is turned away.
fn is_front_of_away(alloc: Global, taken: &[u8]) -> Result<bool, AllocError> {
    let mut text = Vec::new(alloc);
    push_said_refusal(alloc, &mut text, 503)?;
    Ok(text.starts_with(taken))
}

// Asks what has this place: the question of the connection that took an answer with it, or else that of one which took
// no further answer. Says whether there is one.
fn answer_next(
    alloc: Global,
    routes: &Routes,
    desk: &mut Desk,
    all: &mut [Heard<'_>],
    place: u64,
) -> Result<bool, AllocError> {
    if answer_one(alloc, routes, desk, all, Some(place))? {
        return Ok(true);
    }
    answer_one(alloc, routes, desk, all, None)
}

// Asks the question of the first connection whose next answer has this place, or none. Says whether there is one.
fn answer_one(
    alloc: Global,
    routes: &Routes,
    desk: &mut Desk,
    all: &mut [Heard<'_>],
    place: Option<u64>,
) -> Result<bool, AllocError> {
    for heard in all.iter_mut() {
        if heard.place() == place {
            if let Asked::Desk {
                len,
                request,
                closes,
            } = asked_at(alloc, routes, heard.rest())?
            {
                let text = desk.answer(alloc, &request, closes)?;
                heard.take(len, &text, closes);
                heard.settle(alloc, routes)?;
                return Ok(true);
            }
        }
    }
    Ok(false)
}
