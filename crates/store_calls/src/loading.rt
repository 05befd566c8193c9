//! The rows of a store.
ghost use Rattle.std.specs.Prelude.{◌≡◌, None, IfErr, IfOk, IfSome};
ghost use Rattle.desk_records.specs.Tied.{IsSoundOpening};
ghost use Rattle.desk_restoring.specs.Opened.{opening_of};
ghost use Rattle.sms_keeper.specs.Loading.{AreLoaded, StaysDamaged};
ghost use Rattle.sms_open.specs.Reopening.{IsOpened, NamesRefusal, refusal_of_load, refusal_of_rows};
ghost use Rattle.store_calls.specs.Opened.{IsUnopened, WasOpened};

use deck_meaning::Config;
use sms_keeper::{KeeperErr, LoadErr, Rows, Stored};
use sms_open::{OpenErr, RowsErr, test_rows};
use std::alloc::Global;

/// Rows from which a desk may go on, and the configuration of their last deck, if there is one.
#[derive(Drop)]
pub struct FoundRows {
    pub rows: Rows,
    pub config: Option<Config>,
}

/// The keeper with its rows, which pass all tests, or why there are none. The keeper isn't made ready for it.
pub fn load_store<P: Stored>(alloc: Global, mut keeper: P) -> Result<(P, FoundRows), (P, OpenErr)>
    ensures opened { IfOk result (λ found.
        WasOpened P.Keeper P.damage keeper found.0 (opening_of found.1.rows found.1.config)) }
    ensures sound { IfOk result (λ found. IsSoundOpening (opening_of found.1.rows found.1.config)) }
    ensures refused { IfErr result (λ back. IsUnopened P.Keeper P.damage keeper back.0 back.1) }
    ensures damage_left { IfErr result (λ back. StaysDamaged (P.damage keeper) (P.damage back.0)) }
{
    match keeper.load() {
        Ok(rows) => tested(alloc, keeper, rows),
        Err(err) => Err((keeper, refusal_of_load(err))),
    }
}

/// The same of a keeper that is made ready first.
pub fn load_ready<P: Stored>(alloc: Global, mut keeper: P) -> Result<(P, FoundRows), (P, OpenErr)>
    ensures opened { IfOk result (λ found.
        WasOpened P.Keeper P.damage keeper found.0 (opening_of found.1.rows found.1.config)) }
    ensures sound { IfOk result (λ found. IsSoundOpening (opening_of found.1.rows found.1.config)) }
    ensures refused { IfErr result (λ back. IsUnopened P.Keeper P.damage keeper back.0 back.1) }
{
    match keeper.ready() {
        Ok(()) => load_store(alloc, keeper),
        Err(KeeperErr::Failed) => Err((keeper, OpenErr::Failed)),
        Err(KeeperErr::NoMemory) => Err((keeper, OpenErr::NoMemory)),
    }
}

// The same keeper with these rows, which it loaded, where they pass all tests.
fn tested<P: Stored>(alloc: Global, keeper: P, rows: Rows) -> Result<(P, FoundRows), (P, OpenErr)>
    requires loaded { IfSome (P.Keeper.told keeper) (λ tables. AreLoaded tables rows) }
    requires undamaged { P.damage keeper ≡ None }
    ensures keeper { IfOk result (λ found. found.0 ≡ keeper) }
    ensures opened { IfOk result (λ found.
        IsOpened (P.Keeper.told keeper) (opening_of found.1.rows found.1.config)) }
    ensures sound { IfOk result (λ found. IsSoundOpening (opening_of found.1.rows found.1.config)) }
    ensures left { IfErr result (λ back. back.0 ≡ keeper) }
    ensures refused { IfErr result (λ back. NamesRefusal (P.Keeper.told keeper) (P.damage keeper) back.1) }
    ensures unfailed { IfErr result (λ back. back.1 ≡ OpenErr.Failed → ⊥) }
{
    match test_rows(alloc, &rows) {
        Ok(config) => Ok((keeper, FoundRows { rows, config })),
        Err(err) => Err((keeper, refusal_of_rows(err))),
    }
}

// The same refusal.
fn refusal_of_load(err: LoadErr) -> OpenErr
    ensures { result ≡ refusal_of_load err }
{
    match err {
        LoadErr::Failed => OpenErr::Failed,
        LoadErr::Damaged(table, row) => OpenErr::Damaged(table, row),
        LoadErr::NoMemory => OpenErr::NoMemory,
    }
}

// The same refusal.
fn refusal_of_rows(err: RowsErr) -> OpenErr
    ensures { result ≡ refusal_of_rows err }
{
    match err {
        RowsErr::Unsound(number) => OpenErr::Unsound(number),
        RowsErr::NoMemory => OpenErr::NoMemory,
    }
}
