//! Reading a table whole, in the order of its keys.
ghost use Rattle.std.specs.Prelude.{◌≡◌, [], codes, false, map, true, IfOk, OnOk};
ghost use Rattle.sqlite.specs.State.{HasCleanDisk, Shown, Survives};
ghost use Rattle.sqlite.specs.Held.{state};
ghost use Rattle.keeper_statements.specs.Order.{in_order, by_first, by_two, two_columns, three_columns, five_columns};
ghost use Rattle.keeper_statements.specs.Order.{deck_columns};
ghost use Rattle.keeper_statements.specs.Presence.{has_table};
ghost use Rattle.keeper_statements.specs.Steps.{MayStay};
ghost use Rattle.keeper_statements.specs.Tables.{tables_in, IsLegible};

use sqlite::{Alter, Error, Row, Transaction};
use std::alloc::Global;

// All rows of a query without parameters, and none where its table isn't there.
fn all_rows<S: Alter>(
    tx: &mut Transaction<'_, S>,
    alloc: Global,
    is_there: bool,
    text: &str,
) -> Result<Vec<Row>, Error>
    ensures same_reference { tx.new.conn.ghost_name ≡ tx.old.conn.ghost_name }
    ensures shown { HasCleanDisk (state S.Store tx.new.conn.now) → is_there ≡ true →
        IfOk result (λ rows. Shown text.now [] (state S.Store tx.old.conn.now)
        (state S.Store tx.new.conn.now) rows.items) }
    ensures none { is_there ≡ false → IfOk result (λ rows. rows.items ≡ []) }
    ensures same { is_there ≡ false →
        OnOk result ((state S.Store tx.new.conn.now).now ≡ (state S.Store tx.old.conn.now).now) }
    ensures stays { MayStay (state S.Store tx.old.conn.now) (state S.Store tx.new.conn.now) result }
    ensures survives { Survives (state S.Store tx.old.conn.now) (state S.Store tx.new.conn.now) (λ _. ⊥) }
{
    if !is_there {
        return Ok(Vec::new(alloc));
    }
    tx.query_all(text, &[])
}

/// The data sets, by name. There are none where the table isn't there. Nothing changes.
pub fn all_sets<S: Alter>(
    tx: &mut Transaction<'_, S>,
    alloc: Global,
    is_there: bool,
) -> Result<Vec<Row>, Error>
    ensures same_reference { tx.new.conn.ghost_name ≡ tx.old.conn.ghost_name }
    ensures answer { HasCleanDisk (state S.Store tx.new.conn.now) → IsLegible (state S.Store tx.old.conn.now).now →
        has_table (state S.Store tx.old.conn.now).now.schema.tables (codes "sets") ≡ is_there →
        IfOk result (λ rows. rows.items ≡ map two_columns
        (in_order by_first (tables_in (state S.Store tx.old.conn.now).now).sets)) }
    ensures same { HasCleanDisk (state S.Store tx.new.conn.now) → IsLegible (state S.Store tx.old.conn.now).now →
        has_table (state S.Store tx.old.conn.now).now.schema.tables (codes "sets") ≡ is_there →
        OnOk result ((state S.Store tx.new.conn.now).now ≡ (state S.Store tx.old.conn.now).now) }
    ensures stays { MayStay (state S.Store tx.old.conn.now) (state S.Store tx.new.conn.now) result }
    ensures survives { Survives (state S.Store tx.old.conn.now) (state S.Store tx.new.conn.now) (λ _. ⊥) }
{
    all_rows(
        tx,
        alloc,
        is_there,
        "SELECT dsn, rec FROM sets ORDER BY dsn, rowid",
    )
}

/// The kept replies, by job and number. There are none where the table isn't there. Nothing changes.
pub fn all_replies<S: Alter>(
    tx: &mut Transaction<'_, S>,
    alloc: Global,
    is_there: bool,
) -> Result<Vec<Row>, Error>
    ensures same_reference { tx.new.conn.ghost_name ≡ tx.old.conn.ghost_name }
    ensures answer { HasCleanDisk (state S.Store tx.new.conn.now) → IsLegible (state S.Store tx.old.conn.now).now →
        has_table (state S.Store tx.old.conn.now).now.schema.tables (codes "replies") ≡ is_there →
        IfOk result (λ rows. rows.items ≡ map five_columns
        (in_order by_two (tables_in (state S.Store tx.old.conn.now).now).replies)) }
    ensures same { HasCleanDisk (state S.Store tx.new.conn.now) → IsLegible (state S.Store tx.old.conn.now).now →
        has_table (state S.Store tx.old.conn.now).now.schema.tables (codes "replies") ≡ is_there →
        OnOk result ((state S.Store tx.new.conn.now).now ≡ (state S.Store tx.old.conn.now).now) }
    ensures stays { MayStay (state S.Store tx.old.conn.now) (state S.Store tx.new.conn.now) result }
    ensures survives { Survives (state S.Store tx.old.conn.now) (state S.Store tx.new.conn.now) (λ _. ⊥) }
{
    all_rows(
        tx,
        alloc,
        is_there,
        "SELECT job, number, place, request, reply FROM replies ORDER BY job, number, rowid",
    )
}

/// The decks, by number. There are none where the table isn't there. Nothing changes.
pub fn all_decks<S: Alter>(
    tx: &mut Transaction<'_, S>,
    alloc: Global,
    is_there: bool,
) -> Result<Vec<Row>, Error>
    ensures same_reference { tx.new.conn.ghost_name ≡ tx.old.conn.ghost_name }
    ensures answer { HasCleanDisk (state S.Store tx.new.conn.now) → IsLegible (state S.Store tx.old.conn.now).now →
        has_table (state S.Store tx.old.conn.now).now.schema.tables (codes "decks") ≡ is_there →
        IfOk result (λ rows. rows.items ≡ map deck_columns
        (in_order by_first (tables_in (state S.Store tx.old.conn.now).now).decks)) }
    ensures same { HasCleanDisk (state S.Store tx.new.conn.now) → IsLegible (state S.Store tx.old.conn.now).now →
        has_table (state S.Store tx.old.conn.now).now.schema.tables (codes "decks") ≡ is_there →
        OnOk result ((state S.Store tx.new.conn.now).now ≡ (state S.Store tx.old.conn.now).now) }
    ensures stays { MayStay (state S.Store tx.old.conn.now) (state S.Store tx.new.conn.now) result }
    ensures survives { Survives (state S.Store tx.old.conn.now) (state S.Store tx.new.conn.now) (λ _. ⊥) }
{
    all_rows(
        tx,
        alloc,
        is_there,
        "SELECT count, bytes FROM decks ORDER BY count",
    )
}

/// The statuses, by kind and name. There are none where the table isn't there. Nothing changes.
pub fn all_statuses<S: Alter>(
    tx: &mut Transaction<'_, S>,
    alloc: Global,
    is_there: bool,
) -> Result<Vec<Row>, Error>
    ensures same_reference { tx.new.conn.ghost_name ≡ tx.old.conn.ghost_name }
    ensures answer { HasCleanDisk (state S.Store tx.new.conn.now) → IsLegible (state S.Store tx.old.conn.now).now →
        has_table (state S.Store tx.old.conn.now).now.schema.tables (codes "statuses") ≡ is_there →
        IfOk result (λ rows. rows.items ≡ map three_columns
        (in_order by_two (tables_in (state S.Store tx.old.conn.now).now).statuses)) }
    ensures same { HasCleanDisk (state S.Store tx.new.conn.now) → IsLegible (state S.Store tx.old.conn.now).now →
        has_table (state S.Store tx.old.conn.now).now.schema.tables (codes "statuses") ≡ is_there →
        OnOk result ((state S.Store tx.new.conn.now).now ≡ (state S.Store tx.old.conn.now).now) }
    ensures stays { MayStay (state S.Store tx.old.conn.now) (state S.Store tx.new.conn.now) result }
    ensures survives { Survives (state S.Store tx.old.conn.now) (state S.Store tx.new.conn.now) (λ _. ⊥) }
{
    all_rows(
        tx,
        alloc,
        is_there,
        "SELECT kind, name, status FROM statuses ORDER BY kind, name, rowid",
    )
}

/// The floors, by job. There are none where the table isn't there. Nothing changes.
pub fn all_floors<S: Alter>(
    tx: &mut Transaction<'_, S>,
    alloc: Global,
    is_there: bool,
) -> Result<Vec<Row>, Error>
    ensures same_reference { tx.new.conn.ghost_name ≡ tx.old.conn.ghost_name }
    ensures answer { HasCleanDisk (state S.Store tx.new.conn.now) → IsLegible (state S.Store tx.old.conn.now).now →
        has_table (state S.Store tx.old.conn.now).now.schema.tables (codes "floors") ≡ is_there →
        IfOk result (λ rows. rows.items ≡ map two_columns
        (in_order by_first (tables_in (state S.Store tx.old.conn.now).now).floors)) }
    ensures same { HasCleanDisk (state S.Store tx.new.conn.now) → IsLegible (state S.Store tx.old.conn.now).now →
        has_table (state S.Store tx.old.conn.now).now.schema.tables (codes "floors") ≡ is_there →
        OnOk result ((state S.Store tx.new.conn.now).now ≡ (state S.Store tx.old.conn.now).now) }
    ensures stays { MayStay (state S.Store tx.old.conn.now) (state S.Store tx.new.conn.now) result }
    ensures survives { Survives (state S.Store tx.old.conn.now) (state S.Store tx.new.conn.now) (λ _. ⊥) }
{
    all_rows(
        tx,
        alloc,
        is_there,
        "SELECT job, floor FROM floors ORDER BY job, rowid",
    )
}
