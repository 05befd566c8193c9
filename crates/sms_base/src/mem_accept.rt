//! A door in memory.
ghost use Rattle.std.specs.Prelude.{◌≡◌, ◌≤◌, ◌<◌, [], length, true, false, Some, IfOk};
ghost use Rattle.std.specs.List.{AllByRecursion};
ghost use Rattle.sms_base.specs.Links.{IsUntouched};

use crate::accept::Accept;
use crate::mem_link::MemLink;
use crate::source::Failed;
use std::alloc::{AllocError, Global};
use std::collections::VecDeque;
use std::marker::Model;

/// A door in memory: it gives its links in their order, and keeps those that come back.
#[derive(Drop)]
pub struct MemAccept {
    waiting: VecDeque<MemLink>,
    back: Vec<MemLink>,
    asked: u64,
    given: usize,
    ended: bool,
    link_faults: u64,
}

impl Model for MemAccept {
    ghost use Rattle.sms_base.specs.Links.{DoorInMemory, IsDoor, door_of};

    ghost Value = { DoorInMemory };

    ghost view = { λ d. door_of d.waiting.items d.back d.asked d.given d.ended d.link_faults };

    ghost invariant = { λ d. IsDoor d.waiting.items d.back d.given d.ended };
}

impl MemAccept {
    /// A door that gives these links, of which none has failed. Room for those that come back is taken here.
    pub fn new(alloc: Global, links: Vec<MemLink>) -> Result<Self, AllocError>
        requires { AllByRecursion IsUntouched links.items }
        ensures waiting { IfOk result (λ door. door.waiting ≡ links.items) }
        ensures back { IfOk result (λ door. door.back ≡ []) }
        ensures asked { IfOk result (λ door. door.asked ≡ 0) }
        ensures given { IfOk result (λ door. door.given ≡ 0) }
        ensures ended { IfOk result (λ door. door.ended ≡ false) }
        ensures link_faults { IfOk result (λ door. door.link_faults ≡ 0) }
    {
        Ok(MemAccept {
            back: Vec::with_capacity(alloc, links.len())?,
            waiting: VecDeque::from(links),
            asked: 0,
            given: 0,
            ended: false,
            link_faults: 0,
        })
    }

    /// The links that came back, in that order: no more than were given.
    pub fn back(&self) -> &[MemLink]
        ensures back { result.now ≡ self.now.back }
        ensures fair { length self.now.back ≤ self.now.given }
    {
        &self.back
    }
}

impl Accept for MemAccept {
    type Conn = MemLink;

    ghost asked = { λ d. Some d.asked };

    ghost given = { λ d. d.given };

    ghost ended = { λ d. d.ended };

    ghost door_faults = { λ d. 0 };

    ghost link_faults = { λ d. d.link_faults };

    ghost waiting = { λ d. Some d.waiting };

    ghost back = { λ d. Some d.back };

    fn accept(&mut self) -> Result<Option<MemLink>, Failed> {
        self.asked = self.asked.saturating_add(1);
        let Some(link) = self.waiting.pop_front() else {
            self.ended = true;
            return Ok(None);
        };
        self.given += 1;
        Ok(Some(link))
    }

    fn done(&mut self, link: MemLink) {
        if link.has_failed() {
            self.link_faults = self.link_faults.saturating_add(1);
        }
        if self.back.len() < self.given {
            self.back.push_reserved(link);
        }
    }
}
