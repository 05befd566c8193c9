//! The desk.
use crate::signed_core::SignedCore;
use desk_signing::Event;
use sms_keeper::Keeper;
use std::alloc::Global;
use turn_lock::TurnLock;

/// A desk that many workers share (docs/manual/workers.md, "The desk").
#[derive(Drop)]
pub struct Desk<P: Keeper> {
    pub(crate) alloc: Global,
    pub(crate) lock: TurnLock<SignedCore<P>, Event>,
}
