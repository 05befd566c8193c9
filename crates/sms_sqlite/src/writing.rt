// Transactions: a change, and the making of the tables.
ghost use Rattle.std.specs.Prelude.{◌≡◌, IsTrue, OnErr, OnOk, Some, false};
ghost use Rattle.sqlite.specs.Held.{state};
ghost use Rattle.sqlite.specs.State.{HasCleanDisk, Survives};
ghost use Rattle.sms_keeper.specs.Suits.{Suits};
ghost use Rattle.sms_keeper.specs.Tables.{with_change};
ghost use Rattle.sms_keeper.specs.declared.rows.Rows.{Rows};
ghost use Rattle.sms_sqlite.specs.Reading.{IsMadeReady};
ghost use Rattle.sms_sqlite.specs.Told.{tables_of};
ghost use Rattle.sms_sqlite.specs.Writing.{Holds, IsChangeLeft, IsCommitted, IsMadeLeft};

use crate::effects::make_effect;
use crate::replies::keep_reply;
use keeper_statements::{make_tables, present_among};
use sms_keeper::Change;
use sqlite::{Alter, Connection, Error, ErrorCode};
use std::alloc::Global;

// Makes the change in one transaction, or leaves all as it is.
fn write_inside<S: Alter>(
    connection: &mut Connection<S>,
    alloc: Global,
    change: &Change,
) -> Result<(), Error>
    requires { Suits change.now }
    ensures made { HasCleanDisk (state S.Store connection.new) → (rows : Rows) →
        Holds (state S.Store connection.old).now rows →
        OnOk result (IsCommitted (state S.Store connection.old).now (state S.Store connection.new)
        (with_change rows change.now)) }
    ensures kept { HasCleanDisk (state S.Store connection.new) → IsTrue (state S.Store connection.new).is_open →
        OnErr result ((state S.Store connection.new).now ≡ (state S.Store connection.old).now) }
    ensures kept_committed { HasCleanDisk (state S.Store connection.new) →
        IsTrue (state S.Store connection.new).is_open →
        OnErr result ((state S.Store connection.new).committed ≡ (state S.Store connection.old).committed) }
    ensures open { HasCleanDisk (state S.Store connection.new) →
        OnOk result (IsTrue (state S.Store connection.new).is_open) }
    ensures committed { HasCleanDisk (state S.Store connection.new) →
        OnOk result ((state S.Store connection.new).committed ≡ (state S.Store connection.new).now) }
    ensures was_open { HasCleanDisk (state S.Store connection.new) → IsTrue (state S.Store connection.new).is_open →
        IsTrue (state S.Store connection.old).is_open }
    ensures ended { (state S.Store connection.old).in_transaction ≡ false →
        (state S.Store connection.new).in_transaction ≡ false }
    ensures crash { Survives (state S.Store connection.old) (state S.Store connection.new) (λ db. (rows : Rows) →
        Holds (state S.Store connection.old).now rows →
        IsChangeLeft (state S.Store connection.old).now db (with_change rows change.now)) }
{
    if !connection.is_autocommit() {
        return Err(Error::SqliteFailure(ErrorCode::TransactionState));
    }
    let mut tx = connection.transaction();
    make_effect(&mut tx, alloc, change)?;
    keep_reply(&mut tx, alloc, change)?;
    tx.commit()
}

// Makes the change in one transaction, or leaves all as it is. A database without one of the five tables is refused.
pub fn write_change<S: Alter>(
    connection: &mut Connection<S>,
    alloc: Global,
    change: &Change,
) -> Result<(), Error>
    requires { Suits change.now }
    ensures made { HasCleanDisk (state S.Store connection.new) → (rows : Rows) →
        tables_of (state S.Store connection.old).now ≡ Some rows →
        OnOk result (IsCommitted (state S.Store connection.old).now (state S.Store connection.new)
        (with_change rows change.now)) }
    ensures kept { HasCleanDisk (state S.Store connection.new) → IsTrue (state S.Store connection.new).is_open →
        OnErr result ((state S.Store connection.new).now ≡ (state S.Store connection.old).now) }
    ensures kept_committed { HasCleanDisk (state S.Store connection.new) →
        IsTrue (state S.Store connection.new).is_open →
        OnErr result ((state S.Store connection.new).committed ≡ (state S.Store connection.old).committed) }
    ensures open { HasCleanDisk (state S.Store connection.new) →
        OnOk result (IsTrue (state S.Store connection.new).is_open) }
    ensures committed { HasCleanDisk (state S.Store connection.new) →
        OnOk result ((state S.Store connection.new).committed ≡ (state S.Store connection.new).now) }
    ensures was_open { HasCleanDisk (state S.Store connection.new) → IsTrue (state S.Store connection.new).is_open →
        IsTrue (state S.Store connection.old).is_open }
    ensures ended { (state S.Store connection.old).in_transaction ≡ false →
        (state S.Store connection.new).in_transaction ≡ false }
    ensures crash { Survives (state S.Store connection.old) (state S.Store connection.new) (λ db. (rows : Rows) →
        tables_of (state S.Store connection.old).now ≡ Some rows →
        IsChangeLeft (state S.Store connection.old).now db (with_change rows change.now)) }
{
    let there = present_among(connection.schema().tables.as_slice());
    if !there.has_all() {
        return Err(Error::InvalidQuery);
    }
    write_inside(connection, alloc, change)
}

// Makes the tables that aren't there in one transaction, or leaves all as it is.
pub fn write_tables<S: Alter>(connection: &mut Connection<S>) -> Result<(), Error>
    ensures made { HasCleanDisk (state S.Store connection.new) → (rows : Rows) →
        tables_of (state S.Store connection.old).now ≡ Some rows →
        OnOk result (IsCommitted (state S.Store connection.new).now (state S.Store connection.new) rows) }
    ensures tables { HasCleanDisk (state S.Store connection.new) →
        OnOk result (IsMadeReady (state S.Store connection.old).now (state S.Store connection.new).now) }
    ensures kept { HasCleanDisk (state S.Store connection.new) → IsTrue (state S.Store connection.new).is_open →
        OnErr result ((state S.Store connection.new).now ≡ (state S.Store connection.old).now) }
    ensures kept_committed { HasCleanDisk (state S.Store connection.new) →
        IsTrue (state S.Store connection.new).is_open →
        OnErr result ((state S.Store connection.new).committed ≡ (state S.Store connection.old).committed) }
    ensures open { HasCleanDisk (state S.Store connection.new) →
        OnOk result (IsTrue (state S.Store connection.new).is_open) }
    ensures committed { HasCleanDisk (state S.Store connection.new) →
        OnOk result ((state S.Store connection.new).committed ≡ (state S.Store connection.new).now) }
    ensures was_open { HasCleanDisk (state S.Store connection.new) → IsTrue (state S.Store connection.new).is_open →
        IsTrue (state S.Store connection.old).is_open }
    ensures ended { (state S.Store connection.old).in_transaction ≡ false →
        (state S.Store connection.new).in_transaction ≡ false }
    ensures crash { Survives (state S.Store connection.old) (state S.Store connection.new)
        (IsMadeLeft (state S.Store connection.old).now) }
{
    if !connection.is_autocommit() {
        return Err(Error::SqliteFailure(ErrorCode::TransactionState));
    }
    let there = present_among(connection.schema().tables.as_slice());
    let mut tx = connection.transaction();
    make_tables(&mut tx, there)?;
    tx.commit()
}
