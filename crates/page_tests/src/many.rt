//! More extents and entries than a page shows.
use crate::desks::clerk_behind;
use http_flow::Pages;
use page_clerk::PageClerk;
use sms_keeper::FaultKeeper;
use std::alloc::{AllocError, Global};
use std::test::Fail;

const BEGINNING: &str = "\
SMSADMIN 1 ACTIVATE
version = 1
[storclass.SC1]
[storgroup.SG1.volume.VOL001]
tracks = 500
[routine]
storclass = \"PROC STORCLAS SET &STORCLAS = 'SC1' END\"
storgroup = \"PROC STORGRP SET &STORGRP = 'SG1' END\"
./END
";

/// The numbers of the first and the last data set, of two tracks each.
const FIRST: u64 = 1001;

const LAST: u64 = 1201;

/// A path, and how its page begins and ends.
static ROWS: &[(&str, &str, &str)] = &[
    (
        "/volume/VOL001",
        "{\"volser\":\"VOL001\",\"group\":\"SG1\",\"status\":\"ENABLE\",\"capacity\":500,\"free\":98,\
        \"extents\":[{\"dsn\":\"A.A1001\",\"start\":0,\"tracks\":2},{\"dsn\":\"A.A1002\",\"start\":2,\"tracks\":2},",
        ",{\"dsn\":\"A.A1200\",\"start\":398,\"tracks\":2}],\"gaps\":[],\"next\":400}",
    ),
    (
        "/volume/VOL001/from/400",
        "{\"volser\":\"VOL001\",\"group\":\"SG1\",\"status\":\"ENABLE\",\"capacity\":500,\"free\":98,\
        \"extents\":[{\"dsn\":\"A.A1201\",\"start\":400,\"tracks\":2}],",
        ",\"gaps\":[{\"start\":402,\"tracks\":98}],\"next\":null}",
    ),
    (
        "/deck",
        "{\"deck\":\"version = 1\\n[storclass.SC1]\\n",
        "storgroup = \\\"PROC STORGRP SET &STORGRP = 'SG1' END\\\"\\n\"}",
    ),
    (
        "/answers",
        "{\"answers\":[{\"place\":202,\"first\":202,\"job\":\"J\",\"number\":1201,\"code\":\"A00\",",
        ",{\"place\":3,\"first\":3,\"job\":\"J\",\"number\":1002,\"code\":\"A00\",\"asked\":\"ALLOC\",\
        \"name\":\"A.A1002\"}]}",
    ),
];

// A script that allocates the data sets one behind the other.
fn script(alloc: Global) -> Result<String, AllocError> {
    let mut text = String::new(alloc);
    text.push_str(BEGINNING)?;
    for number in FIRST..=LAST {
        text.push_str(&format!(in alloc; "J {number} ALLOC A.A{number} SPACE=(TRK,2)\n")?)?;
    }
    Ok(text)
}

fn is_shown(
    alloc: Global,
    clerk: &PageClerk<FaultKeeper>,
    row: &(&str, &str, &str),
) -> Result<bool, AllocError> {
    let page = clerk.show(alloc, false, row.0.as_bytes(), b"")?;
    let body = page.body.as_slice();
    Ok(body.starts_with(row.1.as_bytes()) && body.ends_with(row.2.as_bytes()))
}

fn are_shown(alloc: Global) -> Result<bool, Fail> {
    let clerk = clerk_behind(alloc, &script(alloc)?)?;
    for row in ROWS {
        if !is_shown(alloc, &clerk, row)? {
            return Ok(false);
        }
    }
    Ok(true)
}

#[test]
fn a_page_shows_the_first_of_many(rt: HostRuntime) -> Result<(), Fail> {
    assert!(rt; are_shown(rt.alloc())?);
    Ok(())
}
