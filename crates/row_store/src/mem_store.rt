//! A store in memory.
ghost use Rattle.std.specs.Prelude.{◌≡◌, [], IfOk, OnErr, OnOk, false};
ghost use Rattle.row_store.specs.Histories.{IsRule};
ghost use Rattle.row_store.specs.Inner.Engines.{Happens, Stands};
ghost use Rattle.row_store.specs.Memory.{MayHold};
ghost use Rattle.row_store.specs.Outcomes.{IsLater, Leaves, Sees};
ghost use Rattle.row_store.specs.declared.contents.Contents.{Contents as Held};

use crate::contents::Contents;
use crate::engine::Engine;
use crate::guard::Guard;
use crate::store::{Outcome, Store, StoreErr};
use crate::transaction::Transaction;
use crate::turn::{Ending, Turn};
use desk_common::Items;
use std::alloc::{AllocError, Global};
use std::collections::VecDeque;
use std::marker::Model;

/// A store in memory, which other desks reach as its turns say: each call has its turn, and where these are over it is
/// answered. A change to which no answer came may be made before any later call, while it still can be.
#[derive(Drop)]
pub struct MemStore {
    alloc: Global,
    engine: Engine,
    turns: VecDeque<Turn>,
}

impl Model for MemStore {
    ghost use Rattle.row_store.specs.Inner.Engines.{Stands};
    ghost use Rattle.row_store.specs.declared.engine.Engine.{Engine};

    ghost Value = { Engine };

    ghost view = { λ s. s.engine };

    ghost invariant = { λ s. Stands s.engine };
}

impl MemStore {
    /// A store of these contents.
    pub fn new(alloc: Global, contents: Contents, turns: Vec<Turn>) -> Result<Self, AllocError>
        ensures { IfOk result (λ store.
            store ≡ record { seen = contents; held = contents; late = []; has_other = false }) }
    {
        Ok(MemStore {
            alloc,
            engine: engine_of(alloc, contents)?,
            turns: VecDeque::from(turns),
        })
    }

    /// What it holds.
    pub fn holds(&self) -> &Contents
        ensures { result.now ≡ self.now.held }
    {
        &self.engine.held
    }

    /// The same store with these turns.
    pub fn with_turns(self, turns: Vec<Turn>) -> Self
        ensures { result ≡ self }
    {
        let mut store = self;
        store.turns = VecDeque::from(turns);
        store
    }
}

impl Store for MemStore {
    ghost use Rattle.std.specs.Prelude.{true};
    ghost use Rattle.row_store.specs.Memory.{MayHold};

    ghost seen = { λ s. s.seen };

    ghost may = { MayHold };

    ghost is_true = { λ s. true };

    fn write(&mut self, transaction: &Transaction) -> Outcome {
        write(self.alloc, &mut self.engine, &mut self.turns, transaction)
    }

    fn guard(&mut self) -> Result<Guard, StoreErr> {
        match show(self.alloc, &mut self.engine, &mut self.turns) {
            Ok(contents) => Ok(contents.guard),
            Err(err) => Err(err),
        }
    }

    fn contents(&mut self) -> Result<Contents, StoreErr> {
        show(self.alloc, &mut self.engine, &mut self.turns)
    }
}

#[tactic(auto, using(crate::proofs::EngineLemmas::done_stands))]
fn engine_of(alloc: Global, contents: Contents) -> Result<Engine, AllocError>
    ensures stands { IfOk result (λ engine. Stands engine) }
    ensures engine { IfOk result (λ engine.
        engine ≡ record { seen = contents; held = contents; late = []; has_other = false }) }
{
    Ok(Engine {
        seen: contents.copy(alloc)?,
        held: contents,
        late: Items::new(alloc),
        has_other: false,
    })
}

// What the next call comes to, behind what happens before it.
#[tactic(auto, using(crate::proofs::EngineLemmas::stays))]
fn next_turn(alloc: Global, engine: &mut Engine, turns: &mut VecDeque<Turn>) -> Ending
    requires { Stands engine.old }
    ensures { Happens engine.old engine.new }
{
    let Some(turn) = turns.pop_front() else {
        return Ending::Answered;
    };
    engine.happen(alloc, &turn.before);
    turn.ending
}

// Makes a transaction at its turn.
#[tactic(auto, using(crate::proofs::EngineLemmas::leaves_of))]
fn write(
    alloc: Global,
    engine: &mut Engine,
    turns: &mut VecDeque<Turn>,
    transaction: &Transaction,
) -> Outcome
    requires stands { Stands engine.old }
    requires rule { IsRule transaction.now }
    requires expected { transaction.now.expects ≡ engine.old.seen.guard }
    ensures stands { Stands engine.new }
    ensures sees { Sees engine.old.seen transaction.now result engine.new.seen }
    ensures leaves { (c : Held) → MayHold engine.new c → Leaves (MayHold engine.old) transaction.now result c }
{
    let ending = next_turn(alloc, engine, turns);
    engine.write(alloc, transaction, ending)
}

// Shows what the engine holds, at its turn.
fn show(
    alloc: Global,
    engine: &mut Engine,
    turns: &mut VecDeque<Turn>,
) -> Result<Contents, StoreErr>
    requires { Stands engine.old }
    ensures stands { Stands engine.new }
    ensures shown { IfOk result (λ found. (engine.new.seen ≡ found) × MayHold engine.old found) }
    ensures err { OnErr result (engine.new.seen ≡ engine.old.seen) }
    ensures may { (c : Held) → MayHold engine.new c → MayHold engine.old c }
    ensures later { (c : Held) → MayHold engine.new c → OnOk result (IsLater engine.new.seen c) }
{
    let Ending::Answered = next_turn(alloc, engine, turns) else {
        return Err(StoreErr::Failed);
    };
    match engine.look(alloc) {
        Ok(found) => Ok(found),
        Err(_) => Err(StoreErr::NoMemory),
    }
}
