//! Gates.
ghost use Rattle.sms_desk.specs.Showing.{IsShown};

use deck_meaning::Config;
use dsn_mask::Name;
use sms_classes::Classified;
use sms_construct::Request;
use std::sync::Wait;

/// What is shown each classification that is made before a turn, and told each answer.
pub trait Gate {
    /// The request was classified so under this configuration, before the first turn or before the second.
    fn between<R: Wait>(
        &self,
        rt: &R,
        request: &Request,
        config: &Config,
        made: &Classified,
        round: u8,
    )
        requires { IsShown config.now request.now made.now };

    /// The job's request has its answer.
    fn after<R: Wait>(&self, rt: &R, job: &Name, number: u32);
}

/// The gate that does nothing.
#[derive(Drop)]
pub struct FreeGate;

impl Gate for FreeGate {
    fn between<R: Wait>(
        &self,
        _rt: &R,
        _request: &Request,
        _config: &Config,
        _made: &Classified,
        _round: u8,
    ) {}

    fn after<R: Wait>(&self, _rt: &R, _job: &Name, _number: u32) {}
}
