//! The volumes of a desk that has just activated a deck.
ghost use Rattle.std.specs.Prelude.{IfOk};
ghost use Rattle.sms_volumes.specs.Holding.{AreVolumesOf};
ghost use Rattle.volume_reasons.specs.EmptyDesk.{empty_under};

use deck_meaning::Config;
use sms_volumes::ActiveVolumes;
use std::alloc::{AllocError, Global};

/// The volumes of this configuration on a desk that has just activated it and has no data set: all their tracks are
/// free, and their statuses are those of the deck.
pub fn empty_volumes(alloc: Global, config: &Config) -> Result<ActiveVolumes, AllocError>
    ensures { IfOk result (AreVolumesOf (empty_under config.now)) }
{
    // Facts for the proof; nothing changes.
    let _deck = config.deck();
    let mut none = ActiveVolumes::none(alloc);
    let mut volumes = none.under(alloc, config)?;
    volumes.take_over(&mut none);
    Ok(volumes)
}
