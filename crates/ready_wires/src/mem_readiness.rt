//! Events that come by a script.
ghost use Rattle.std.specs.Prelude.{◌≡◌, [], ◌∷◌, IfSome, Some, option_map};
ghost use Rattle.ready_wires.specs.Events.{Tells};

use crate::mem_wire::MemWire;
use crate::readiness::{Event, Readiness};
use sms_base::Failed;
use std::alloc::Global;
use std::collections::VecDeque;
use std::marker::Model;

/// What happens by the script.
#[derive(Drop)]
pub enum Happening {
    /// A connection comes.
    Came(MemWire),
    /// The connection under this key is told of as ready.
    Ready(usize),
    /// The connection under this key is told of as idle.
    Idle(usize),
    /// Nothing happens.
    Quiet,
    /// Waiting fails.
    Fails,
}

/// Tells what its script says; behind that, each key that is still to be told of as ready, the last first.
#[derive(Drop)]
pub struct MemReadiness {
    script: VecDeque<Happening>,
    awaited: Vec<usize>,
    // Whether memory for a key that is still to be told of was wanting.
    forgot: bool,
    idle: Option<Vec<usize>>,
    back: Option<Vec<MemWire>>,
    calls: u64,
    came: u64,
    ended: bool,
    faults: u64,
    watches: u64,
    fails: Vec<u64>,
}

impl Model for MemReadiness {
    ghost use Rattle.std.specs.Prelude.{Some, None, option_map, if◌then◌else◌};
    ghost use Rattle.ready_wires.specs.Memory.{ReadinessInMemory};
    ghost use Rattle.ready_wires.specs.Memory.{WireInMemory};
    ghost use Rattle.ready_wires.specs.declared.mem_readiness.Happening.{Happening as HappeningOf};

    ghost Value = { ReadinessInMemory HappeningOf WireInMemory };

    ghost view = { λ r. record {
      seen = record {
        calls = Some r.calls;
        came = Some r.came;
        idle = option_map (λ v. v.items) r.idle;
        awaited = if r.forgot then None else Some r.awaited.items;
        ended = r.ended;
        faults = r.faults;
      };
      back = option_map (λ v. v.items) r.back;
      script = r.script.items;
      watches = r.watches;
      fails = r.fails.items;
    } };
}

impl MemReadiness {
    /// Tells what this script says. The watches whose numbers, counted from 1, stand in `fails` fail.
    pub fn new(alloc: Global, script: Vec<Happening>, fails: Vec<u64>) -> Self
        ensures script { result.script ≡ script.items }
        ensures fails { result.fails ≡ fails.items }
        ensures back { result.back ≡ Some [] }
        ensures calls { result.seen.calls ≡ Some 0 }
        ensures came { result.seen.came ≡ Some 0 }
        ensures faults { result.seen.faults ≡ 0 }
    {
        MemReadiness {
            script: VecDeque::from(script),
            awaited: Vec::new(alloc),
            forgot: false,
            idle: Some(Vec::new(alloc)),
            back: Some(Vec::new(alloc)),
            calls: 0,
            came: 0,
            ended: false,
            faults: 0,
            watches: 0,
            fails,
        }
    }

    /// The connections that were handed back, in that order; none are told where memory for them was wanting.
    pub fn back(&self) -> &[MemWire]
        ensures { IfSome self.now.back (λ back. result.now ≡ back) }
    {
        match &self.back {
            Some(back) => back,
            None => &[],
        }
    }
}

impl Readiness for MemReadiness {
    type Conn = MemWire;

    ghost seen = { λ r. r.seen };

    ghost back = { λ r. r.back };

    fn next(&mut self) -> Result<Event<MemWire>, Failed> {
        self.calls = self.calls.saturating_add(1);
        match self.script.pop_front() {
            Some(Happening::Came(wire)) => {
                self.came = self.came.saturating_add(1);
                Ok(Event::Came(wire.afresh()))
            }
            Some(Happening::Ready(key)) => Ok(Event::Ready(key)),
            Some(Happening::Idle(key)) => {
                self.idle = pushed(self.idle.take(), key);
                Ok(Event::Idle(key))
            }
            Some(Happening::Quiet) => Ok(Event::Quiet),
            Some(Happening::Fails) => {
                self.faults = self.faults.saturating_add(1);
                Err(Failed)
            }
            None => match self.awaited.pop() {
                Some(key) => Ok(Event::Ready(key)),
                None => {
                    self.ended = true;
                    Ok(Event::Ended)
                }
            },
        }
    }

    fn watch(&mut self, conn: &mut MemWire, key: usize) -> Result<(), Failed> {
        self.watches = self.watches.saturating_add(1);
        if self.fails.contains(&self.watches) || self.awaited.push(key).is_err() {
            self.faults = self.faults.saturating_add(1);
            conn.not_watched();
            return Err(Failed);
        }
        conn.watch(key, self.idle.as_ref().map(|keys| keys.len()));
        Ok(())
    }

    fn rest(&mut self, conn: &mut MemWire, key: usize) {
        if self.awaited.push(key).is_err() {
            self.forgot = true;
        }
        conn.rest();
    }

    fn done(&mut self, conn: MemWire) {
        self.back = pushed(self.back.take(), conn);
    }
}

// A list with one item more; none where there was none or memory was wanting.
fn pushed<T: Drop>(list: Option<Vec<T>>, item: T) -> Option<Vec<T>>
    ensures { Tells (option_map (λ v. v.items) list) (option_map (λ v. v.items) result) (item ∷ []) }
{
    let mut items = list?;
    match items.push(item) {
        Ok(()) => Some(items),
        Err(_) => None,
    }
}
