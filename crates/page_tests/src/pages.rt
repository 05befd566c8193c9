//! What pages show.
use crate::desks::clerk_behind;
use http_flow::{PageStatus, Pages};
use page_clerk::PageClerk;
use sms_keeper::FaultKeeper;
use std::alloc::{AllocError, Global};
use std::test::Fail;

const BEGINNING: &str = "\
SMSADMIN 1 ACTIVATE
version = 1
[storclass.SC1]
[storgroup.SG1]
high = 80
breakpoint = 0
[storgroup.SG1.volume.EAV001]
cylinders = 65541
[storgroup.SG2]
overflow = true
[storgroup.SG2.volume.VOL001]
tracks = 100
[routine]
storclass = \"PROC STORCLAS SET &STORCLAS = 'SC1' END\"
storgroup = \"PROC STORGRP IF &HLQ = 'PAY' THEN SET &STORGRP = 'SG2' ELSE SET &STORGRP = 'SG1' END\"
./END
J 1 ALLOC PAY.A SPACE=(TRK,10)
J 2 ALLOC PAY.B SPACE=(TRK,(5,3))
J 3 ALLOC BIG.X SPACE=(CYL,1) EATTR=OPT
J 4 ALLOC PAY.C SPACE=(TRK,7)
J 5 DELETE PAY.A
J 6 EXTEND PAY.B
";

/// Whether it is asked by POST, the path, the body, and the status and the body of the page.
type Row = (bool, &'static str, &'static str, PageStatus, &'static str);

#[rattlefmt::skip]
static ROWS: &[Row] = &[
    (false, "/health", "", PageStatus::Shown, "{\"health\":\"ok\"}"),
    (false, "/desk", "", PageStatus::Shown, "{\"activations\":1,\"entries\":7,\"volumes\":2}"),
    (false, "/volume/vol001", "", PageStatus::Shown,
        "{\"volser\":\"VOL001\",\"group\":\"SG2\",\"status\":\"ENABLE\",\"capacity\":100,\"free\":85,\"extents\":[\
        {\"dsn\":\"PAY.B\",\"start\":0,\"tracks\":3},{\"dsn\":\"PAY.B\",\"start\":10,\"tracks\":5},\
        {\"dsn\":\"PAY.C\",\"start\":15,\"tracks\":7}],\
        \"gaps\":[{\"start\":3,\"tracks\":7},{\"start\":22,\"tracks\":78}],\"next\":null}"),
    (false, "/volume/VOL001/from/12", "", PageStatus::Shown,
        "{\"volser\":\"VOL001\",\"group\":\"SG2\",\"status\":\"ENABLE\",\"capacity\":100,\"free\":85,\"extents\":[\
        {\"dsn\":\"PAY.B\",\"start\":10,\"tracks\":5},{\"dsn\":\"PAY.C\",\"start\":15,\"tracks\":7}],\
        \"gaps\":[{\"start\":22,\"tracks\":78}],\"next\":null}"),
    (false, "/volume/EAV001", "", PageStatus::Shown,
        "{\"volser\":\"EAV001\",\"group\":\"SG1\",\"status\":\"ENABLE\",\"capacity\":983115,\"free\":982800,\
        \"extents\":[{\"dsn\":\"BIG.X\",\"start\":982800,\"tracks\":315}],\
        \"gaps\":[{\"start\":0,\"tracks\":982800}],\"next\":null}"),
    (false, "/volume/VOL001/from/100", "", PageStatus::Shown,
        "{\"volser\":\"VOL001\",\"group\":\"SG2\",\"status\":\"ENABLE\",\"capacity\":100,\"free\":85,\
        \"extents\":[],\"gaps\":[],\"next\":null}"),
    (false, "/volume/VOL002", "", PageStatus::Missing, "{\"error\":\"no active volume has this serial\"}"),
    (false, "/volume/VOL0001", "", PageStatus::Bad, BAD),
    (false, "/volume/VOL001/from/x", "", PageStatus::Bad, BAD),
    (false, "/volume/VOL001/from", "", PageStatus::Missing, MISSING),
    (false, "/volume/VOL001/to/1", "", PageStatus::Missing, MISSING),
    (false, "/volume/VOL001/from/1/2", "", PageStatus::Missing, MISSING),
    (false, "/volumes", "", PageStatus::Shown,
        "{\"volumes\":[{\"volser\":\"EAV001\",\"group\":\"SG1\",\"status\":\"ENABLE\",\"capacity\":983115,\
        \"free\":982800,\"extents\":1},{\"volser\":\"VOL001\",\"group\":\"SG2\",\"status\":\"ENABLE\",\
        \"capacity\":100,\"free\":85,\"extents\":3}]}"),
    (false, "/groups", "", PageStatus::Shown,
        "{\"groups\":[{\"group\":\"SG1\",\"volumes\":1,\"capacity\":983115,\"free\":982800,\"high\":80,\"low\":1,\
        \"overflow\":false,\"breakpoint\":0},{\"group\":\"SG2\",\"volumes\":1,\"capacity\":100,\"free\":85,\
        \"high\":85,\"low\":1,\"overflow\":true,\"breakpoint\":10}]}"),
    (false, "/sets/PAY.*/after/PAY.B", "", PageStatus::Shown,
        "{\"sets\":[{\"dsn\":\"PAY.C\",\"dataclas\":null,\"storclas\":\"SC1\",\"mgmtclas\":null,\"group\":\"SG2\",\
        \"day\":0,\"retpd\":null,\"unit\":\"TRK\",\"secondary\":0,\"volumes\":1,\"eattr\":\"NO\",\"used\":0,\
        \"extents\":[{\"volser\":\"VOL001\",\"start\":15,\"tracks\":7}]}],\"after\":null}"),
    (false, "/set/pay.b", "", PageStatus::Shown,
        "{\"dsn\":\"PAY.B\",\"dataclas\":null,\"storclas\":\"SC1\",\"mgmtclas\":null,\"group\":\"SG2\",\
        \"day\":0,\"retpd\":null,\"unit\":\"TRK\",\"secondary\":3,\"volumes\":1,\"eattr\":\"NO\",\"used\":0,\
        \"extents\":[{\"volser\":\"VOL001\",\"start\":10,\"tracks\":5},{\"volser\":\"VOL001\",\"start\":0,\"tracks\":3}]}"),
    (false, "/%73et/%50AY.B", "", PageStatus::Shown,
        "{\"dsn\":\"PAY.B\",\"dataclas\":null,\"storclas\":\"SC1\",\"mgmtclas\":null,\"group\":\"SG2\",\
        \"day\":0,\"retpd\":null,\"unit\":\"TRK\",\"secondary\":3,\"volumes\":1,\"eattr\":\"NO\",\"used\":0,\
        \"extents\":[{\"volser\":\"VOL001\",\"start\":10,\"tracks\":5},{\"volser\":\"VOL001\",\"start\":0,\"tracks\":3}]}"),
    (false, "/sets/*.B", "", PageStatus::Shown,
        "{\"sets\":[{\"dsn\":\"PAY.B\",\"dataclas\":null,\"storclas\":\"SC1\",\"mgmtclas\":null,\"group\":\"SG2\",\
        \"day\":0,\"retpd\":null,\"unit\":\"TRK\",\"secondary\":3,\"volumes\":1,\"eattr\":\"NO\",\"used\":0,\
        \"extents\":[{\"volser\":\"VOL001\",\"start\":10,\"tracks\":5},{\"volser\":\"VOL001\",\"start\":0,\"tracks\":3}]}],\"after\":null}"),
    (true, "/set/PAY.B", "", PageStatus::NotAllowed, "{\"error\":\"this page is read by GET\"}"),
    (true, "/desk", "", PageStatus::NotAllowed, "{\"error\":\"this page is read by GET\"}"),
    (false, "/set/PAY.A", "", PageStatus::Missing, "{\"error\":\"no data set of this name is catalogued\"}"),
    (false, "/answers", "", PageStatus::Shown,
        "{\"answers\":[\
        {\"place\":7,\"first\":7,\"job\":\"J\",\"number\":6,\"code\":\"A02\",\"asked\":\"EXTEND\",\"name\":\"PAY.B\"},\
        {\"place\":6,\"first\":6,\"job\":\"J\",\"number\":5,\"code\":\"A03\",\"asked\":\"DELETE\",\"name\":\"PAY.A\"},\
        {\"place\":5,\"first\":5,\"job\":\"J\",\"number\":4,\"code\":\"A00\",\"asked\":\"ALLOC\",\"name\":\"PAY.C\"},\
        {\"place\":4,\"first\":4,\"job\":\"J\",\"number\":3,\"code\":\"A00\",\"asked\":\"ALLOC\",\"name\":\"BIG.X\"},\
        {\"place\":3,\"first\":3,\"job\":\"J\",\"number\":2,\"code\":\"A00\",\"asked\":\"ALLOC\",\"name\":\"PAY.B\"},\
        {\"place\":2,\"first\":2,\"job\":\"J\",\"number\":1,\"code\":\"A00\",\"asked\":\"ALLOC\",\"name\":\"PAY.A\"},\
        {\"place\":1,\"first\":1,\"job\":\"SMSADMIN\",\"number\":1,\"code\":\"A04\",\"asked\":\"ACTIVATE\",\
        \"name\":null}]}"),
    (true, "/check", "version", PageStatus::Shown, "{\"code\":\"R21\",\"lines\":[\"R21 DECK K1\"]}"),
    (true, "/check", "version = 1\n[storgroup.SG1.volume.EAV001]\ncylinders = 65541\n", PageStatus::Shown,
        "{\"code\":\"R22\",\"lines\":[\"R22 VOLUME IN USE VOL001\"]}"),
    (true, "/check", "version = 1\n[storgroup.SG1.volume.EAV001]\ncylinders = 65520\n", PageStatus::Shown,
        "{\"code\":\"R22\",\"lines\":[\"R22 VOLUME IN USE EAV001\"]}"),
    (true, "/check", "version = 1\n[storgroup.SG1.volume.EAV001]\ncylinders = 65541\n\
        [storgroup.SG1.volume.VOL001]\ntracks = 100\n", PageStatus::Shown, "{\"code\":\"A04\",\"lines\":[]}"),
    (true, "/classify/job1/pay.new", "{\"SPACE\":\"(TRK,5)\"}", PageStatus::Shown,
        "{\"outcome\":\"CLASSES - SC1 - SG2\",\"lines\":[]}"),
    (true, "/classify/JOB1/NEW.ONE", "", PageStatus::Shown, "{\"outcome\":\"CLASSES - SC1 - SG1\",\"lines\":[]}"),
    (true, "/classify/JOB1/NEW.ONE", "{\"SPACE\":1}", PageStatus::Bad, "{\"error\":\"the body isn't that of an ALLOC\"}"),
    (true, "/classify/JOB1", "", PageStatus::Missing, MISSING),
    (true, "/classify/JOB1/A.B/C", "", PageStatus::Missing, MISSING),
    (true, "/classify/JOB-1/A.B", "", PageStatus::Bad, BAD),
    (true, "/explain/job1/pay.new", "{\"SPACE\":\"(TRK,5)\"}", PageStatus::Shown,
        "{\"text\":\"STORCLAS BEGIN - - -\\n  1:15 SET\\n  1:19 &STORCLAS = 'SC1'\\nSTORCLAS END - SC1 -\\n\
        STORGRP BEGIN - SC1 -\\n  1:14 IF\\n  1:24 &HLQ EQ 'PAY' TRUE 'PAY'\\n  1:35 SET\\n\
        \x20 1:39 &STORGRP = 'SG2'\\nSTORGRP END - SC1 - SG2\\n\"}"),
    (true, "/explain/JOB1/NEW.ONE", "no JSON", PageStatus::Bad, "{\"error\":\"the body isn't that of an ALLOC\"}"),
    (true, "/explain/JOB1/-", "", PageStatus::Bad, BAD),
    (false, "/explain/JOB1/NEW.ONE", "", PageStatus::NotAllowed, "{\"error\":\"this page is asked by POST\"}"),
    (true, "/", "", PageStatus::NotAllowed, "{\"error\":\"this page is read by GET\"}"),
    (true, "/desk.js", "", PageStatus::NotAllowed, "{\"error\":\"this page is read by GET\"}"),
    (false, "/desk.html", "", PageStatus::Missing, MISSING),
    (false, "//", "", PageStatus::Missing, MISSING),
    (false, "/desk.css/x", "", PageStatus::Missing, MISSING),
    (false, "/classify/JOB1/NEW.ONE", "", PageStatus::NotAllowed, "{\"error\":\"this page is asked by POST\"}"),
    (false, "/check", "", PageStatus::NotAllowed, "{\"error\":\"this page is asked by POST\"}"),
    (true, "/answers", "", PageStatus::NotAllowed, "{\"error\":\"this page is read by GET\"}"),
    (true, "/volume/VOL001", "", PageStatus::NotAllowed, "{\"error\":\"this page is read by GET\"}"),
    (true, "/nothing", "", PageStatus::Missing, MISSING),
];

const BAD: &str = "{\"error\":\"a segment of this path is no name, serial, number or mask\"}";

const MISSING: &str = "{\"error\":\"there is no page at this path\"}";

/// The pages of a desk where nothing is active.
#[rattlefmt::skip]
static EMPTY: &[Row] = &[
    (false, "/desk", "", PageStatus::Shown, "{\"activations\":null,\"entries\":0,\"volumes\":0}"),
    (false, "/answers", "", PageStatus::Shown, "{\"answers\":[]}"),
    (false, "/deck", "", PageStatus::Shown, "{\"deck\":null}"),
    (false, "/groups", "", PageStatus::Shown, "{\"groups\":[]}"),
    (false, "/volume/VOL001", "", PageStatus::Missing, "{\"error\":\"no active volume has this serial\"}"),
    (true, "/classify/JOB1/A.B", "", PageStatus::Missing, "{\"error\":\"no configuration is active\"}"),
    (true, "/explain/JOB1/A.B", "", PageStatus::Missing, "{\"error\":\"no configuration is active\"}"),
    (true, "/check", "version = 1\n", PageStatus::Shown, "{\"code\":\"A04\",\"lines\":[]}"),
];

fn is_shown(alloc: Global, clerk: &PageClerk<FaultKeeper>, row: &Row) -> Result<bool, AllocError> {
    let (posts, path, body, status, wanted) = *row;
    let page = clerk.show(alloc, posts, path.as_bytes(), body.as_bytes())?;
    Ok(page.status == status && page.body.as_slice() == wanted.as_bytes())
}

// Whether each row is shown behind the script.
fn are_shown(alloc: Global, script: &str, rows: &[Row]) -> Result<bool, Fail> {
    let clerk = clerk_behind(alloc, script)?;
    for row in rows {
        if !is_shown(alloc, &clerk, row)? {
            return Ok(false);
        }
    }
    Ok(true)
}

#[test]
fn pages_show_the_desk(rt: HostRuntime) -> Result<(), Fail> {
    assert!(rt; are_shown(rt.alloc(), BEGINNING, ROWS)?);
    Ok(())
}

#[test]
fn pages_show_an_empty_desk(rt: HostRuntime) -> Result<(), Fail> {
    assert!(rt; are_shown(rt.alloc(), "", EMPTY)?);
    Ok(())
}
