//! What an ALLOC asks for, as a record.
ghost use Rattle.std.specs.Prelude.{◌≡◌};
ghost use Rattle.sms_records.specs.Allocs.{alloc_from, choices_of};

use crate::record_err::RecordErr;
use crate::recorded::Recorded;
use acs_tree::Given;
use dsn_mask::{Dsn, Name};
use sms_construct::{Alloc, Eattr, Space, VolumeCount};
use std::alloc::{AllocError, Global};

// The volumes, the day, the retention period, and whether the data set may lie on cylinder-managed space.
type Others = (Option<VolumeCount>, (u32, (Option<u32>, Option<Eattr>)));

// The space, the classes and the others.
type Choices = (
    Option<Space>,
    (Option<Name>, (Option<Name>, (Option<Name>, Others))),
);

// What routines see, and the choices.
type Asked = (Given, Choices);

impl Recorded for Alloc {
    ghost use Rattle.sms_records.specs.Allocs.{alloc_form};
    ghost use Rattle.sms_records.specs.Inner.AllocLaws.{alloc_exact};

    ghost form = { alloc_form };

    ghost exact = { alloc_exact };

    fn write_to(&self, out: &mut Vec<u8>) -> Result<(), AllocError> {
        self.input.dsn().write_to(out)?;
        self.input.write_to(out)?;
        choices_of(self).write_to(out)
    }

    #[tactic(auto, unfolding(crate::specs::Form::seen_at))]
    fn read_from(alloc: Global, bytes: &[u8]) -> Result<(Self, &[u8]), RecordErr> {
        match <(Dsn, Asked)>::read_from(alloc, bytes) {
            Ok(((dsn, asked), rest)) => {
                if dsn != *asked.0.dsn() {
                    return Err(RecordErr::Bad);
                }
                Ok((alloc_from(asked), rest))
            }
            Err(err) => Err(err),
        }
    }
}

// The space, the classes and the others.
fn choices_of(request: &Alloc) -> Choices
    ensures { result ≡ choices_of request.now }
{
    let others = (
        request.volumes,
        (request.day, (request.retpd, request.eattr)),
    );
    let classes = (
        request.dataclas,
        (request.storclas, (request.mgmtclas, others)),
    );
    (request.space, classes)
}

// The ALLOC of these fields.
fn alloc_from(asked: Asked) -> Alloc
    ensures { result ≡ alloc_from asked }
{
    let (input, (space, (dataclas, (storclas, (mgmtclas, others))))) = asked;
    let (volumes, (day, (retpd, eattr))) = others;
    Alloc {
        input,
        space,
        dataclas,
        storclas,
        mgmtclas,
        volumes,
        day,
        retpd,
        eattr,
    }
}
