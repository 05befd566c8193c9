//! Changes for a keeper over a database.
use desk_common::{Items, Shared};
use dsn_mask::{Dsn, Name};
use sms_construct::{DataSet, Eattr, Op, Reply, Request, RequestNumber, Unit, VolumeCount};
use sms_keeper::{Change, Effect};
use std::alloc::Global;
use std::test::Fail;

fn name(text: &str) -> Result<Name, Fail> {
    Ok(Name::new(text.as_bytes()).ok_or("name")?)
}

fn dsn() -> Result<Dsn, Fail> {
    Ok(Dsn::parse(b"A.B").ok().ok_or("dsn")?)
}

// The request of JOB1 with this number.
fn request(number: u32) -> Result<Request, Fail> {
    Ok(Request {
        job: name("JOB1")?,
        number: RequestNumber::new(number).ok_or("number")?,
        op: Op::Extend(dsn()?),
    })
}

fn data_set(alloc: Global) -> Result<DataSet, Fail> {
    Ok(DataSet {
        dsn: dsn()?,
        dataclas: None,
        storclas: name("SC1")?,
        mgmtclas: None,
        group: name("SG1")?,
        unit: Unit::Trk,
        secondary: 0,
        volumes: VolumeCount::one(),
        day: 0,
        retpd: None,
        used: 0,
        extents: Items::new(alloc),
        eattr: Eattr::No,
    })
}

/// The change with this number of JOB1, which is its place too, that puts the data set A.B.
pub fn change(alloc: Global, number: u32) -> Result<Change, Fail> {
    let set = Shared::new(alloc, data_set(alloc)?)?;
    Ok(Change {
        place: u64::from(number),
        request: request(number)?,
        reply: Reply::Noted,
        effect: Effect::PutSet(set),
    })
}
