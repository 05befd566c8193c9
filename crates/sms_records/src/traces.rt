//! What routines wrote, as records.

use crate::record_err::RecordErr;
use crate::recorded::Recorded;
use acs_tree::{Kind, Line, More};
use desk_common::Items;
use dsn_mask::Lit;
use sms_construct::Trace;
use std::alloc::{AllocError, Global};

impl Recorded for Line {
    ghost use Rattle.sms_records.specs.Traces.{line_form};
    ghost use Rattle.sms_records.specs.Inner.TraceLaws.{line_exact};

    ghost form = { line_form };

    ghost exact = { line_exact };

    fn write_to(&self, out: &mut Vec<u8>) -> Result<(), AllocError> {
        (self.kind, self.text).write_to(out)
    }

    #[tactic(auto, unfolding(crate::specs::Form::seen_at))]
    fn read_from(alloc: Global, bytes: &[u8]) -> Result<(Self, &[u8]), RecordErr> {
        match <(Kind, Lit)>::read_from(alloc, bytes) {
            Ok(((kind, text), rest)) => Ok((Line { kind, text }, rest)),
            Err(err) => Err(err),
        }
    }
}

impl Recorded for More {
    ghost use Rattle.sms_records.specs.Traces.{more_form};
    ghost use Rattle.sms_records.specs.Inner.TraceLaws.{more_exact};

    ghost form = { more_form };

    ghost exact = { more_exact };

    fn write_to(&self, out: &mut Vec<u8>) -> Result<(), AllocError> {
        (
            self.dataclas,
            (self.storclas, (self.mgmtclas, self.storgrp)),
        )
            .write_to(out)
    }

    #[tactic(auto, unfolding(crate::specs::Form::seen_at))]
    fn read_from(alloc: Global, bytes: &[u8]) -> Result<(Self, &[u8]), RecordErr> {
        match <(u32, (u32, (u32, u32)))>::read_from(alloc, bytes) {
            Ok(((dataclas, (storclas, (mgmtclas, storgrp))), rest)) => Ok((
                More {
                    dataclas,
                    storclas,
                    mgmtclas,
                    storgrp,
                },
                rest,
            )),
            Err(err) => Err(err),
        }
    }
}

impl Recorded for Trace {
    ghost use Rattle.sms_records.specs.Traces.{trace_form};
    ghost use Rattle.sms_records.specs.Inner.TraceLaws.{trace_exact};

    ghost form = { trace_form };

    ghost exact = { trace_exact };

    fn write_to(&self, out: &mut Vec<u8>) -> Result<(), AllocError> {
        self.lines.write_to(out)?;
        self.more.write_to(out)
    }

    #[tactic(auto, unfolding(crate::specs::Form::seen_at))]
    fn read_from(alloc: Global, bytes: &[u8]) -> Result<(Self, &[u8]), RecordErr> {
        match <(Items<Line>, More)>::read_from(alloc, bytes) {
            Ok(((lines, more), rest)) => Ok((Trace { lines, more }, rest)),
            Err(err) => Err(err),
        }
    }
}
