//! The running state and the log that recorded rows come to.
ghost use Rattle.std.specs.Prelude.{◌≡◌, length, IfOk};
ghost use Rattle.desk_law.specs.State.{start_of};
ghost use Rattle.desk_law.specs.Lawful.{IsLawful, IsLawfulOpening};
ghost use Rattle.desk_records.specs.Tied.{IsLogOf};
ghost use Rattle.desk_state.specs.Standing.{IsRunning};
ghost use Rattle.sms_volumes.specs.Holding.{AreVolumesOf};

use crate::cataloguing::catalog_of;
use crate::configuring::volumes_under;
use crate::logging::log_of;
use crate::placing::place_all;
use crate::restored::Restored;
use deck_meaning::Config;
use desk_common::Shared;
use desk_records::Opening;
use desk_state::{BlankTrace, Running};
use sms_keeper::Rows;
use sms_volumes::ActiveVolumes;
use std::alloc::{AllocError, Global};

/// What a desk goes on with behind this opening, or want of memory: the running state after its last entry, and the
/// log of its floors and replies (docs/manual/records.md). No data set and no reply is copied.
pub fn restore(alloc: Global, opening: Opening) -> Result<Restored, AllocError>
    requires { IsLawfulOpening opening }
    ensures running { IfOk result (λ restored. IsRunning (start_of opening) restored.running) }
    ensures log { IfOk result (λ restored. IsLogOf opening.rows.floors opening.rows.replies restored.log) }
{
    let Opening { rows, config, .. } = opening;
    restored(alloc, &rows, config)
}

// What these rows come to under this configuration.
fn restored(alloc: Global, rows: &Rows, config: Option<Config>) -> Result<Restored, AllocError>
    requires { IsLawful (record {
      activations = length rows.now.decks;
      active = config;
      statuses = rows.now.statuses;
      sets = rows.now.sets;
    }) }
    ensures running { IfOk result (λ restored. IsRunning
        (record {
          activations = length rows.now.decks;
          active = config;
          statuses = rows.now.statuses;
          sets = rows.now.sets;
        }) restored.running) }
    ensures log { IfOk result (λ restored. IsLogOf rows.now.floors rows.now.replies restored.log) }
{
    let running = running_of(alloc, rows, config)?;
    let log = log_of(alloc, rows.floors.as_slice(), rows.replies.as_slice())?;
    Ok(Restored { running, log })
}

// The running state of these rows under this configuration.
fn running_of(alloc: Global, rows: &Rows, config: Option<Config>) -> Result<Running, AllocError>
    requires { IsLawful (record {
      activations = length rows.now.decks;
      active = config;
      statuses = rows.now.statuses;
      sets = rows.now.sets;
    }) }
    ensures { IfOk result
        (IsRunning (record {
          activations = length rows.now.decks;
          active = config;
          statuses = rows.now.statuses;
          sets = rows.now.sets;
        })) }
{
    let volumes = held_volumes(alloc, rows, &config)?;
    let config = shared(alloc, config)?;
    let catalog = catalog_of(alloc, rows.sets.as_slice())?;
    Ok(Running {
        alloc,
        activations: rows.decks.len() as u64,
        config,
        volumes,
        catalog,
        blank: BlankTrace::new(),
    })
}

// The volumes of the configuration, with the recorded statuses and what the data sets hold.
fn held_volumes(
    alloc: Global,
    rows: &Rows,
    config: &Option<Config>,
) -> Result<ActiveVolumes, AllocError>
    requires { IsLawful (record {
      activations = length rows.now.decks;
      active = config.now;
      statuses = rows.now.statuses;
      sets = rows.now.sets;
    }) }
    ensures { IfOk result
        (AreVolumesOf (record {
          activations = length rows.now.decks;
          active = config.now;
          statuses = rows.now.statuses;
          sets = rows.now.sets;
        })) }
{
    let mut volumes = volumes_under(alloc, config, rows.statuses.as_slice())?;
    let sets = rows.sets.as_slice();
    place_all(&mut volumes, sets)?;
    Ok(volumes)
}

// The configuration with one owner.
fn shared(alloc: Global, config: Option<Config>) -> Result<Option<Shared<Config>>, AllocError>
    ensures { IfOk result (λ made. made ≡ config) }
{
    match config {
        Some(config) => Ok(Some(Shared::new(alloc, config)?)),
        None => Ok(None),
    }
}
