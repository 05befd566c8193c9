//! Data sets and their extents as records.
ghost use Rattle.std.specs.Prelude.{◌≡◌};
ghost use Rattle.sms_records.specs.Sets.{data_set_of};

use crate::record_err::RecordErr;
use crate::recorded::Recorded;
use desk_common::Items;
use dsn_mask::{Dsn, Name, Volser};
use sms_construct::{DataSet, Eattr, Extent, Unit, VolumeCount};
use std::alloc::{AllocError, Global};

// The data class, the storage class, the management class and the group.
type Classes = (Option<Name>, (Name, (Option<Name>, Name)));

// The unit, the secondary quantity and the number of volumes.
type Quantities = (Unit, (u32, VolumeCount));

// The day, the retention period and the used tracks.
type Usage = (u32, (Option<u32>, u32));

// The fields of a data set.
type Fields = (
    (Dsn, (Classes, (Quantities, Usage))),
    (Items<Extent>, Eattr),
);

impl Recorded for Extent {
    ghost use Rattle.sms_records.specs.Sets.{extent_form};
    ghost use Rattle.sms_records.specs.Inner.SetLaws.{extent_exact};

    ghost form = { extent_form };

    ghost exact = { extent_exact };

    fn write_to(&self, out: &mut Vec<u8>) -> Result<(), AllocError> {
        (self.volser, (self.start, self.length)).write_to(out)
    }

    #[tactic(auto, unfolding(crate::specs::Form::seen_at))]
    fn read_from(alloc: Global, bytes: &[u8]) -> Result<(Self, &[u8]), RecordErr> {
        match <(Volser, (u32, u32))>::read_from(alloc, bytes) {
            Ok(((volser, (start, length)), rest)) => Ok((
                Extent {
                    volser,
                    start,
                    length,
                },
                rest,
            )),
            Err(err) => Err(err),
        }
    }
}

impl Recorded for DataSet {
    ghost use Rattle.sms_records.specs.Sets.{data_set_form};
    ghost use Rattle.sms_records.specs.Inner.SetLaws.{data_set_exact};

    ghost form = { data_set_form };

    ghost exact = { data_set_exact };

    fn write_to(&self, out: &mut Vec<u8>) -> Result<(), AllocError> {
        let classes = (self.dataclas, (self.storclas, (self.mgmtclas, self.group)));
        let quantities = (self.unit, (self.secondary, self.volumes));
        let usage = (self.day, (self.retpd, self.used));
        (self.dsn, (classes, (quantities, usage))).write_to(out)?;
        self.extents.write_to(out)?;
        self.eattr.write_to(out)
    }

    #[tactic(auto, unfolding(crate::specs::Form::seen_at))]
    fn read_from(alloc: Global, bytes: &[u8]) -> Result<(Self, &[u8]), RecordErr> {
        match <Fields>::read_from(alloc, bytes) {
            Ok((fields, rest)) => Ok((data_set_of(fields), rest)),
            Err(err) => Err(err),
        }
    }
}

// The data set of these fields.
fn data_set_of(fields: Fields) -> DataSet
    ensures { result ≡ data_set_of fields }
{
    let ((dsn, (classes, (quantities, usage))), (extents, eattr)) = fields;
    let (dataclas, (storclas, (mgmtclas, group))) = classes;
    let (unit, (secondary, volumes)) = quantities;
    let (day, (retpd, used)) = usage;
    DataSet {
        dsn,
        dataclas,
        storclas,
        mgmtclas,
        group,
        unit,
        secondary,
        volumes,
        day,
        retpd,
        used,
        extents,
        eattr,
    }
}
