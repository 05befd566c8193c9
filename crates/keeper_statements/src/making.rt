//! The making of the tables.
ghost use Rattle.std.specs.Prelude.{◌≡◌, [], IsTrue, OnOk};
ghost use Rattle.sqlite.specs.State.{ExecutesInside, HasCleanDisk, Survives};
ghost use Rattle.sqlite.specs.Held.{state};
ghost use Rattle.keeper_statements.specs.Steps.{HasMade, HasMadeFirst, HasMadeLast, MayStay, RunsUnless};

use crate::present::Present;
use sqlite::{Alter, Error, Transaction};

// Runs a text without parameters.
fn run<S: Alter>(tx: &mut Transaction<'_, S>, text: &str) -> Result<usize, Error>
    ensures same_reference { tx.new.conn.ghost_name ≡ tx.old.conn.ghost_name }
    ensures runs { HasCleanDisk (state S.Store tx.new.conn.now) →
        IsTrue (state S.Store tx.old.conn.now).in_transaction →
        ExecutesInside 0 text.now [] (state S.Store tx.old.conn.now) (state S.Store tx.new.conn.now) result }
    ensures stays { MayStay (state S.Store tx.old.conn.now) (state S.Store tx.new.conn.now) result }
    ensures survives { Survives (state S.Store tx.old.conn.now) (state S.Store tx.new.conn.now) (λ _. ⊥) }
{
    tx.execute(text, &[])
}

// Runs the text that makes a table, unless the table is there.
fn run_unless<S: Alter>(
    tx: &mut Transaction<'_, S>,
    is_there: bool,
    text: &str,
) -> Result<(), Error>
    ensures same_reference { tx.new.conn.ghost_name ≡ tx.old.conn.ghost_name }
    ensures runs { HasCleanDisk (state S.Store tx.new.conn.now) →
        IsTrue (state S.Store tx.old.conn.now).in_transaction →
        OnOk result (RunsUnless is_there text.now (state S.Store tx.old.conn.now) (state S.Store tx.new.conn.now)) }
    ensures stays { MayStay (state S.Store tx.old.conn.now) (state S.Store tx.new.conn.now) result }
    ensures survives { Survives (state S.Store tx.old.conn.now) (state S.Store tx.new.conn.now) (λ _. ⊥) }
{
    if is_there {
        return Ok(());
    }
    run(tx, text)?;
    Ok(())
}

// Makes the tables of data sets, kept replies and decks, each unless it is there.
fn make_first<S: Alter>(tx: &mut Transaction<'_, S>, there: Present) -> Result<(), Error>
    ensures same_reference { tx.new.conn.ghost_name ≡ tx.old.conn.ghost_name }
    ensures made { HasCleanDisk (state S.Store tx.new.conn.now) →
        IsTrue (state S.Store tx.old.conn.now).in_transaction →
        OnOk result (HasMadeFirst there (state S.Store tx.old.conn.now).now (state S.Store tx.new.conn.now).now) }
    ensures stays { MayStay (state S.Store tx.old.conn.now) (state S.Store tx.new.conn.now) result }
    ensures survives { Survives (state S.Store tx.old.conn.now) (state S.Store tx.new.conn.now) (λ _. ⊥) }
{
    run_unless(
        tx,
        there.sets,
        "CREATE TABLE sets (dsn TEXT PRIMARY KEY, rec BLOB NOT NULL) STRICT",
    )?;
    run_unless(
        tx,
        there.replies,
        "CREATE TABLE replies (job TEXT NOT NULL, number INTEGER NOT NULL,
  place INTEGER NOT NULL UNIQUE, request BLOB NOT NULL, reply BLOB NOT NULL,
  PRIMARY KEY (job, number)) STRICT",
    )?;
    run_unless(
        tx,
        there.decks,
        "CREATE TABLE decks (count INTEGER PRIMARY KEY, bytes BLOB NOT NULL) STRICT",
    )
}

// Makes the tables of statuses and floors, each unless it is there.
fn make_last<S: Alter>(tx: &mut Transaction<'_, S>, there: Present) -> Result<(), Error>
    ensures same_reference { tx.new.conn.ghost_name ≡ tx.old.conn.ghost_name }
    ensures made { HasCleanDisk (state S.Store tx.new.conn.now) →
        IsTrue (state S.Store tx.old.conn.now).in_transaction →
        OnOk result (HasMadeLast there (state S.Store tx.old.conn.now).now (state S.Store tx.new.conn.now).now) }
    ensures stays { MayStay (state S.Store tx.old.conn.now) (state S.Store tx.new.conn.now) result }
    ensures survives { Survives (state S.Store tx.old.conn.now) (state S.Store tx.new.conn.now) (λ _. ⊥) }
{
    run_unless(
        tx,
        there.statuses,
        "CREATE TABLE statuses (kind INTEGER NOT NULL, name TEXT NOT NULL,
  status INTEGER NOT NULL, PRIMARY KEY (kind, name)) STRICT",
    )?;
    run_unless(
        tx,
        there.floors,
        "CREATE TABLE floors (job TEXT PRIMARY KEY, floor INTEGER NOT NULL) STRICT",
    )
}

/// Makes those of the five tables that aren't there, without rows, in the order data sets, kept replies, decks,
/// statuses, floors. The database refuses it where one of them is there under another kind of object, as a view.
pub fn make_tables<S: Alter>(tx: &mut Transaction<'_, S>, there: Present) -> Result<(), Error>
    ensures same_reference { tx.new.conn.ghost_name ≡ tx.old.conn.ghost_name }
    ensures made { HasCleanDisk (state S.Store tx.new.conn.now) →
        IsTrue (state S.Store tx.old.conn.now).in_transaction →
        OnOk result (HasMade there (state S.Store tx.old.conn.now).now (state S.Store tx.new.conn.now).now) }
    ensures stays { MayStay (state S.Store tx.old.conn.now) (state S.Store tx.new.conn.now) result }
    ensures survives { Survives (state S.Store tx.old.conn.now) (state S.Store tx.new.conn.now) (λ _. ⊥) }
{
    make_first(tx, there)?;
    make_last(tx, there)
}
