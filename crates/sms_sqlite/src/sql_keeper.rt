//! A keeper over a database.
ghost use Rattle.std.specs.Prelude.{◌≡◌, ◌≤◌, ◌↔◌, IfErr, IfOk, IfSome, IsErrOf, IsTrue, None, OnErr, OnOk, Some};
ghost use Rattle.std.specs.Prelude.{false, true};
ghost use Rattle.desk_common.specs.Causes.{Rose, counted};
ghost use Rattle.sqlite.specs.Held.{state};
ghost use Rattle.sqlite.specs.State.{HasCleanDisk, Survives};
ghost use Rattle.sqlite.specs.Tree.{Trees};
ghost use Rattle.keeper_statements.specs.Presence.{has_hidden};
ghost use Rattle.keeper_statements.specs.Tables.{IsLegible, tables_in};
ghost use Rattle.sms_keeper.specs.Faults.{faults_counted};
ghost use Rattle.sms_keeper.specs.Loading.{AreLoaded, NamesDamage, SameDamage, StaysDamaged};
ghost use Rattle.sms_keeper.specs.Suits.{Suits};
ghost use Rattle.sms_keeper.specs.Tables.{with_change};
ghost use Rattle.sms_keeper.specs.Told.{Applies, Stays};
ghost use Rattle.sms_keeper.specs.declared.rows.Rows.{Rows as Told};
ghost use Rattle.sms_sqlite.specs.Damage.{ordered};
ghost use Rattle.sms_sqlite.specs.Reading.{AnswersAll, IsMadeReady, NamesFault, ReadsAll, faults_after};
ghost use Rattle.sms_sqlite.specs.Told.{damage_by, tables_of, told_by};
ghost use Rattle.sms_sqlite.specs.Writing.{HasRows, IsAsBefore, IsChangeLeft, IsMadeLeft, MayCommit, MayUndo};
ghost use Rattle.sms_sqlite.specs.Writing.{MaySettle, with_trees};

use crate::load_fault::LoadFault;
use crate::loading::load_rows;
use crate::writing::{write_change, write_tables};
use sms_keeper::{Change, Keeper, KeeperErr, LoadErr, Rows, Stored};
use sqlite::{Alter, Connection, Error, ErrorCode};
use std::alloc::Global;
use std::marker::Model;
use std::snapshot::Snapshot;

/// Keeps the records in a database (docs/manual/records.md, "The database"), which may hold other tables too. It tells
/// its tables where each of the five was in its form or missing as the database was handed in, nothing else had one of
/// their names, no foreign key referred to them and no further UNIQUE bound them, and their rows all stood for
/// something; so far as the connection is open and the disk has returned what was written.
#[derive(Drop)]
pub struct SqlKeeper<S: Alter + Drop> {
    alloc: Global,
    connection: Connection<S>,
    base: Snapshot<Connection<S>>,
    faults: u64,
}

impl<S: Alter + Drop> Model for SqlKeeper<S> {
    ghost use Rattle.sqlite.specs.Held.{state};
    ghost use Rattle.sms_sqlite.specs.Told.{IsReadable, KeeperView, keeper_code};

    ghost Value = { KeeperView S };

    ghost coded = { keeper_code S.code };

    ghost view = { λ k. record { connection = k.connection; base = k.base.value; faults = k.faults } };

    ghost invariant = { λ k. IsReadable (state S.Store k.base.value).now (state S.Store k.connection) };
}

impl<S: Alter + Drop> SqlKeeper<S> {
    /// A keeper over the database of this connection. It takes no memory.
    pub fn new(alloc: Global, connection: Connection<S>) -> Self
        ensures { result ≡ record { connection = connection; base = connection; faults = 0 } }
    {
        let base = Snapshot::of(&connection);
        SqlKeeper {
            alloc,
            connection,
            base,
            faults: 0,
        }
    }

    /// The connection. It takes no memory.
    pub fn into_connection(self) -> Connection<S>
        ensures { result ≡ self.connection }
    {
        self.connection
    }

    // Makes the change in one transaction.
    fn write(&mut self, change: &Change) -> Result<(), Error>
        requires { Suits change.now }
        ensures base { self.new.base ≡ self.old.base }
        ensures faults { self.new.faults ≡ self.old.faults }
        ensures applied { OnOk result (Applies change.now (told_by S.Store self.old) (told_by S.Store self.new)) }
        ensures kept { OnErr result (Stays (told_by S.Store self.old) (told_by S.Store self.new)) }
        ensures unchanged { MayUndo (state S.Store self.old.connection) (state S.Store self.new.connection) result }
        ensures settled { MaySettle (state S.Store self.new.connection) result }
        ensures made { MayCommit (λ rows. with_change rows change.now) (state S.Store self.old.connection)
            (state S.Store self.new.connection) result }
        ensures ended { (state S.Store self.old.connection).in_transaction ≡ false →
            (state S.Store self.new.connection).in_transaction ≡ false }
        ensures crash { Survives (state S.Store self.old.connection) (state S.Store self.new.connection)
            (λ db. (rows : Told) → tables_of (state S.Store self.old.connection).now ≡ Some rows →
            IsChangeLeft (state S.Store self.old.connection).now db (with_change rows change.now)) }
        ensures alone { OnOk result (IfSome (told_by S.Store self.new) (λ rows. (db : Trees) →
            (state S.Store self.new.connection).may_leave db →
            HasRows (state S.Store self.new.connection).now (with_trees (state S.Store self.new.connection).now db)
            rows)) }
    {
        write_change(&mut self.connection, self.alloc, change)
    }

    // Reads the tables.
    fn read(&mut self) -> Result<Rows, LoadFault>
        ensures base { self.new.base ≡ self.old.base }
        ensures faults { self.new.faults ≡ self.old.faults }
        ensures refuses { has_hidden (state S.Store self.old.connection).now.schema ≡ true → OnOk result ⊥ }
        ensures reads { HasCleanDisk (state S.Store self.new.connection) →
            IsLegible (state S.Store self.old.connection).now →
            ReadsAll (ordered (tables_in (state S.Store self.old.connection).now)) result }
        ensures loaded { IfOk result (λ rows. IfSome (told_by S.Store self.new) (λ told. AreLoaded told rows)) }
        ensures sound { OnOk result (damage_by S.Store self.new ≡ None) }
        ensures damaged { IfErr result (NamesFault (told_by S.Store self.new) (damage_by S.Store self.new)) }
        ensures kept { Stays (told_by S.Store self.old) (told_by S.Store self.new) }
        ensures damage_kept { StaysDamaged (damage_by S.Store self.old) (damage_by S.Store self.new) }
        ensures unchanged { HasCleanDisk (state S.Store self.new.connection) →
            IsTrue (state S.Store self.new.connection).is_open →
            IsAsBefore (state S.Store self.old.connection) (state S.Store self.new.connection) }
        ensures ended { (state S.Store self.old.connection).in_transaction ≡ false →
            (state S.Store self.new.connection).in_transaction ≡ false }
        ensures crash { Survives (state S.Store self.old.connection) (state S.Store self.new.connection) (λ _. ⊥) }
    {
        load_rows(&mut self.connection, self.alloc)
    }

    // Makes the tables in one transaction.
    fn make(&mut self) -> Result<(), Error>
        ensures base { self.new.base ≡ self.old.base }
        ensures faults { self.new.faults ≡ self.old.faults }
        ensures kept { Stays (told_by S.Store self.old) (told_by S.Store self.new) }
        ensures damage_kept { SameDamage (damage_by S.Store self.old) (damage_by S.Store self.new) }
        ensures unchanged { MayUndo (state S.Store self.old.connection) (state S.Store self.new.connection) result }
        ensures settled { MaySettle (state S.Store self.new.connection) result }
        ensures made { HasCleanDisk (state S.Store self.new.connection) →
            OnOk result (IsMadeReady (state S.Store self.old.connection).now (state S.Store self.new.connection).now) }
        ensures ended { (state S.Store self.old.connection).in_transaction ≡ false →
            (state S.Store self.new.connection).in_transaction ≡ false }
        ensures crash { Survives (state S.Store self.old.connection) (state S.Store self.new.connection)
            (IsMadeLeft (state S.Store self.old.connection).now) }
    {
        write_tables(&mut self.connection)
    }

    // What the keeper answers to a refusal of the database: each but want of memory is counted.
    fn refuse(&mut self, error: Error) -> KeeperErr
        ensures connection { self.new.connection ≡ self.old.connection }
        ensures base { self.new.base ≡ self.old.base }
        ensures named { result ≡ KeeperErr.NoMemory ↔ (error ≡ Error.SqliteFailure ErrorCode.OutOfMemory) }
        ensures memory { result ≡ KeeperErr.NoMemory → self.new.faults ≡ self.old.faults }
        ensures failed { result ≡ KeeperErr.Failed → self.new.faults ≡ counted self.old.faults }
        ensures rises { self.old.faults ≤ self.new.faults }
    {
        match error {
            Error::SqliteFailure(ErrorCode::OutOfMemory) => KeeperErr::NoMemory,
            _ => {
                self.faults = self.faults.saturating_add(1);
                KeeperErr::Failed
            }
        }
    }
}

impl<S: Alter + Drop> Keeper for SqlKeeper<S> {
    ghost use Rattle.sms_sqlite.specs.Told.{told_by};

    ghost told = { told_by S.Store };

    ghost count = { λ k. k.faults };

    fn commit(&mut self, change: &Change) -> Result<(), KeeperErr>
        requires { Suits change.now }
        ensures applied { OnOk result (Applies change.now (told_by S.Store self.old) (told_by S.Store self.new)) }
        ensures kept { OnErr result (Stays (told_by S.Store self.old) (told_by S.Store self.new)) }
        ensures cause { IsErrOf result KeeperErr.Failed → Rose self.old.faults self.new.faults }
        ensures stands { (IsErrOf result KeeperErr.Failed → ⊥) → self.new.faults ≡ self.old.faults }
        ensures rises { self.old.faults ≤ self.new.faults }
        ensures faults { self.new.faults ≡ faults_counted self.old.faults result }
        ensures base { self.new.base ≡ self.old.base }
        ensures unchanged { MayUndo (state S.Store self.old.connection) (state S.Store self.new.connection) result }
        ensures settled { MaySettle (state S.Store self.new.connection) result }
        ensures made { MayCommit (λ rows. with_change rows change.now) (state S.Store self.old.connection)
            (state S.Store self.new.connection) result }
        ensures ended { (state S.Store self.old.connection).in_transaction ≡ false →
            (state S.Store self.new.connection).in_transaction ≡ false }
        ensures crash { Survives (state S.Store self.old.connection) (state S.Store self.new.connection)
            (λ db. (rows : Told) → tables_of (state S.Store self.old.connection).now ≡ Some rows →
            IsChangeLeft (state S.Store self.old.connection).now db (with_change rows change.now)) }
        ensures alone { OnOk result (IfSome (told_by S.Store self.new) (λ rows. (db : Trees) →
            (state S.Store self.new.connection).may_leave db →
            HasRows (state S.Store self.new.connection).now (with_trees (state S.Store self.new.connection).now db)
            rows)) }
    {
        match self.write(change) {
            Ok(()) => Ok(()),
            Err(error) => Err(self.refuse(error)),
        }
    }

    fn faults(&self) -> u64 {
        self.faults
    }
}

impl<S: Alter + Drop> Stored for SqlKeeper<S> {
    ghost use Rattle.sms_sqlite.specs.Told.{damage_by};

    ghost damage = { damage_by S.Store };

    fn ready(&mut self) -> Result<(), KeeperErr>
        ensures kept { Stays (told_by S.Store self.old) (told_by S.Store self.new) }
        ensures damage_kept { SameDamage (damage_by S.Store self.old) (damage_by S.Store self.new) }
        ensures cause { IsErrOf result KeeperErr.Failed → Rose self.old.faults self.new.faults }
        ensures stands { (IsErrOf result KeeperErr.Failed → ⊥) → self.new.faults ≡ self.old.faults }
        ensures rises { self.old.faults ≤ self.new.faults }
        ensures faults { self.new.faults ≡ faults_counted self.old.faults result }
        ensures base { self.new.base ≡ self.old.base }
        ensures unchanged { MayUndo (state S.Store self.old.connection) (state S.Store self.new.connection) result }
        ensures settled { MaySettle (state S.Store self.new.connection) result }
        ensures made { HasCleanDisk (state S.Store self.new.connection) →
            OnOk result (IsMadeReady (state S.Store self.old.connection).now (state S.Store self.new.connection).now) }
        ensures ended { (state S.Store self.old.connection).in_transaction ≡ false →
            (state S.Store self.new.connection).in_transaction ≡ false }
        ensures crash { Survives (state S.Store self.old.connection) (state S.Store self.new.connection)
            (IsMadeLeft (state S.Store self.old.connection).now) }
    {
        match self.make() {
            Ok(()) => Ok(()),
            Err(error) => Err(self.refuse(error)),
        }
    }

    fn load(&mut self) -> Result<Rows, LoadErr>
        ensures loaded { IfOk result (λ rows. IfSome (told_by S.Store self.new) (λ told. AreLoaded told rows)) }
        ensures sound { OnOk result (damage_by S.Store self.new ≡ None) }
        ensures damaged { IfErr result (NamesDamage (told_by S.Store self.new) (damage_by S.Store self.new)) }
        ensures kept { Stays (told_by S.Store self.old) (told_by S.Store self.new) }
        ensures damage_kept { StaysDamaged (damage_by S.Store self.old) (damage_by S.Store self.new) }
        ensures cause { IsErrOf result LoadErr.Failed → Rose self.old.faults self.new.faults }
        ensures stands { (IsErrOf result LoadErr.Failed → ⊥) → self.new.faults ≡ self.old.faults }
        ensures rises { self.old.faults ≤ self.new.faults }
        ensures faults { self.new.faults ≡ faults_after self.old.faults result }
        ensures refuses { has_hidden (state S.Store self.old.connection).now.schema ≡ true → OnOk result ⊥ }
        ensures reads { HasCleanDisk (state S.Store self.new.connection) →
            IsLegible (state S.Store self.old.connection).now →
            AnswersAll (ordered (tables_in (state S.Store self.old.connection).now)) result }
        ensures base { self.new.base ≡ self.old.base }
        ensures unchanged { HasCleanDisk (state S.Store self.new.connection) →
            IsTrue (state S.Store self.new.connection).is_open →
            IsAsBefore (state S.Store self.old.connection) (state S.Store self.new.connection) }
        ensures ended { (state S.Store self.old.connection).in_transaction ≡ false →
            (state S.Store self.new.connection).in_transaction ≡ false }
        ensures crash { Survives (state S.Store self.old.connection) (state S.Store self.new.connection) (λ _. ⊥) }
    {
        match self.read() {
            Ok(rows) => Ok(rows),
            Err(LoadFault::Damaged(table, row)) => Err(LoadErr::Damaged(table, row)),
            Err(LoadFault::NoMemory) => Err(LoadErr::NoMemory),
            Err(LoadFault::Refused(error)) => match self.refuse(error) {
                KeeperErr::Failed => Err(LoadErr::Failed),
                KeeperErr::NoMemory => Err(LoadErr::NoMemory),
            },
        }
    }
}
