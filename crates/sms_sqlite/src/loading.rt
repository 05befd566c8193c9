// Reading the five tables.
ghost use Rattle.std.specs.Prelude.{◌≡◌, false, true, IfOk, IsErrOf, IsTrue, None, OnOk};
ghost use Rattle.sqlite.specs.Held.{state};
ghost use Rattle.sqlite.specs.State.{HasCleanDisk, Survives};
ghost use Rattle.sms_keeper.specs.Tables.{no_rows};
ghost use Rattle.sms_records.specs.declared.record_err.RecordErr.TheVariants.{Bad};
ghost use Rattle.keeper_statements.specs.Presence.{has_hidden, present_in};
ghost use Rattle.keeper_statements.specs.Steps.{MayStay};
ghost use Rattle.keeper_statements.specs.Tables.{IsLegible, Tables, tables_in};
ghost use Rattle.sms_sqlite.specs.Damage.{ordered};
ghost use Rattle.sms_sqlite.specs.Reading.{AreShown, IsPushed, Reads, ReadsAll};

use crate::load_fault::LoadFault;
use crate::shown_rows::ShownRows;
use crate::table_row::TableRow;
use desk_common::Items;
use keeper_statements::{
    Present, all_decks, all_floors, all_replies, all_sets, all_statuses, has_hidden, present_among,
};
use sms_keeper::{Rows, Table};
use sms_records::RecordErr;
use sqlite::{Alter, Connection, Error, ErrorCode, Row, Transaction};
use std::alloc::Global;

// Puts the value of a row behind the others.
fn push_row<T: TableRow>(values: &mut Vec<T>, alloc: Global, row: &Row) -> Result<(), RecordErr>
    ensures pushed { OnOk result (IsPushed (T.meaning row.now) values.old.items values.new.items) }
    ensures bad { IsErrOf result Bad → T.meaning row.now ≡ None }
{
    let value = T::read_row(alloc, row)?;
    Ok(values.push(value)?)
}

// The values of the rows of a table, or the first row that stands for nothing.
fn read_rows<T: TableRow>(alloc: Global, table: Table, rows: &[Row]) -> Result<Items<T>, LoadFault>
    ensures { Reads table T.meaning rows.now result }
{
    let mut values = Vec::new(alloc);
    for at in 0..rows.len() {
        match push_row(&mut values, alloc, &rows[at]) {
            Ok(()) => (),
            Err(RecordErr::Bad) => return Err(LoadFault::Damaged(table, at as u64)),
            Err(RecordErr::NoMemory) => return Err(LoadFault::NoMemory),
        }
    }
    Ok(Items::from_vec(values))
}

// The values of what the texts showed of each table, or the first row that stands for nothing.
fn read_found(alloc: Global, found: &ShownRows) -> Result<Rows, LoadFault>
    ensures { (t : Tables) → AreShown t found.now → ReadsAll t result }
{
    let sets = read_rows(alloc, Table::Sets, found.sets.as_slice())?;
    let replies = read_rows(alloc, Table::Replies, found.replies.as_slice())?;
    let decks = read_rows(alloc, Table::Decks, found.decks.as_slice())?;
    let statuses = read_rows(alloc, Table::Statuses, found.statuses.as_slice())?;
    let floors = read_rows(alloc, Table::Floors, found.floors.as_slice())?;
    Ok(Rows {
        sets,
        replies,
        decks,
        statuses,
        floors,
    })
}

// All rows of the five tables, inside a transaction. A table that isn't there has none.
fn find_rows<S: Alter>(
    tx: &mut Transaction<'_, S>,
    alloc: Global,
    there: Present,
) -> Result<ShownRows, Error>
    ensures same_reference { tx.new.conn.ghost_name ≡ tx.old.conn.ghost_name }
    ensures found { HasCleanDisk (state S.Store tx.new.conn.now) →
        IsTrue (state S.Store tx.old.conn.now).in_transaction → IsLegible (state S.Store tx.old.conn.now).now →
        present_in (state S.Store tx.old.conn.now).now.schema.tables ≡ there →
        IfOk result (AreShown (ordered (tables_in (state S.Store tx.old.conn.now).now))) }
    ensures stays { MayStay (state S.Store tx.old.conn.now) (state S.Store tx.new.conn.now) result }
    ensures survives { Survives (state S.Store tx.old.conn.now) (state S.Store tx.new.conn.now) (λ _. ⊥) }
{
    let sets = all_sets(tx, alloc, there.sets)?;
    let replies = all_replies(tx, alloc, there.replies)?;
    let decks = all_decks(tx, alloc, there.decks)?;
    let statuses = all_statuses(tx, alloc, there.statuses)?;
    let floors = all_floors(tx, alloc, there.floors)?;
    Ok(ShownRows {
        sets,
        replies,
        decks,
        statuses,
        floors,
    })
}

// All rows of the five tables. The transaction is rolled back, since nothing was written.
fn query_rows<S: Alter>(
    connection: &mut Connection<S>,
    alloc: Global,
    there: Present,
) -> Result<ShownRows, Error>
    ensures found { HasCleanDisk (state S.Store connection.new) → IsLegible (state S.Store connection.old).now →
        present_in (state S.Store connection.old).now.schema.tables ≡ there →
        IfOk result (AreShown (ordered (tables_in (state S.Store connection.old).now))) }
    ensures kept { HasCleanDisk (state S.Store connection.new) → IsTrue (state S.Store connection.new).is_open →
        (state S.Store connection.new).now ≡ (state S.Store connection.old).now }
    ensures kept_committed { HasCleanDisk (state S.Store connection.new) →
        IsTrue (state S.Store connection.new).is_open →
        (state S.Store connection.new).committed ≡ (state S.Store connection.old).committed }
    ensures was_open { HasCleanDisk (state S.Store connection.new) → IsTrue (state S.Store connection.new).is_open →
        IsTrue (state S.Store connection.old).is_open }
    ensures ended { (state S.Store connection.old).in_transaction ≡ false →
        (state S.Store connection.new).in_transaction ≡ false }
    ensures crash { Survives (state S.Store connection.old) (state S.Store connection.new) (λ _. ⊥) }
{
    if !connection.is_autocommit() {
        return Err(Error::SqliteFailure(ErrorCode::TransactionState));
    }
    let mut tx = connection.transaction();
    find_rows(&mut tx, alloc, there)
}

fn empty_rows(alloc: Global) -> Rows
    ensures { result ≡ no_rows }
{
    Rows {
        sets: Items::from_vec(Vec::new(alloc)),
        replies: Items::from_vec(Vec::new(alloc)),
        decks: Items::from_vec(Vec::new(alloc)),
        statuses: Items::from_vec(Vec::new(alloc)),
        floors: Items::from_vec(Vec::new(alloc)),
    }
}

// Reads the five tables, each in the order of its keys. One that isn't there has no rows; where something other than
// a table has one of the names they are refused. Nothing changes.
pub fn load_rows<S: Alter>(connection: &mut Connection<S>, alloc: Global) -> Result<Rows, LoadFault>
    ensures refuses { has_hidden (state S.Store connection.old).now.schema ≡ true → OnOk result ⊥ }
    ensures reads { HasCleanDisk (state S.Store connection.new) → IsLegible (state S.Store connection.old).now →
        ReadsAll (ordered (tables_in (state S.Store connection.old).now)) result }
    ensures kept { HasCleanDisk (state S.Store connection.new) → IsTrue (state S.Store connection.new).is_open →
        (state S.Store connection.new).now ≡ (state S.Store connection.old).now }
    ensures kept_committed { HasCleanDisk (state S.Store connection.new) →
        IsTrue (state S.Store connection.new).is_open →
        (state S.Store connection.new).committed ≡ (state S.Store connection.old).committed }
    ensures was_open { HasCleanDisk (state S.Store connection.new) → IsTrue (state S.Store connection.new).is_open →
        IsTrue (state S.Store connection.old).is_open }
    ensures ended { (state S.Store connection.old).in_transaction ≡ false →
        (state S.Store connection.new).in_transaction ≡ false }
    ensures crash { Survives (state S.Store connection.old) (state S.Store connection.new) (λ _. ⊥) }
{
    if has_hidden(connection.schema()) {
        return Err(LoadFault::Refused(Error::InvalidQuery));
    }
    let there = present_among(connection.schema().tables.as_slice());
    if there.has_none() {
        return Ok(empty_rows(alloc));
    }
    let found = query_rows(connection, alloc, there)?;
    read_found(alloc, &found)
}
