//! Runs on values that no ALLOC gives: sizes of no space, storage groups before their routine, a volume twice.
use crate::runs::{Run, all_come, ends};
use acs_tree::Ending::{Exit, Falls};
use acs_tree::Kind::{MgmtClas, StorGrp};
use std::alloc::Global;
use std::test::Fail;

/// A condition, what a run is given, and whether the condition holds.
type Question = (&'static str, &'static str, bool);

/// The same behind filter lists.
type Listed = (&'static str, &'static str, &'static str, bool);

#[rattlefmt::skip]
static QUESTIONS: [Question; 99] = [
    ("&SIZE = 4KB", "SIZE=5", false),
    ("&SIZE = 5KB", "SIZE=5", true),
    ("&SIZE = 6KB", "SIZE=5", false),
    ("&SIZE ^= 4KB", "SIZE=5", true),
    ("&SIZE ^= 5KB", "SIZE=5", false),
    ("&SIZE ^= 6KB", "SIZE=5", true),
    ("&SIZE > 4KB", "SIZE=5", true),
    ("&SIZE > 5KB", "SIZE=5", false),
    ("&SIZE > 6KB", "SIZE=5", false),
    ("&SIZE < 4KB", "SIZE=5", false),
    ("&SIZE < 5KB", "SIZE=5", false),
    ("&SIZE < 6KB", "SIZE=5", true),
    ("&SIZE >= 4KB", "SIZE=5", true),
    ("&SIZE >= 5KB", "SIZE=5", true),
    ("&SIZE >= 6KB", "SIZE=5", false),
    ("&SIZE <= 4KB", "SIZE=5", false),
    ("&SIZE <= 5KB", "SIZE=5", true),
    ("&SIZE <= 6KB", "SIZE=5", true),
    ("&SIZE ^> 4KB", "SIZE=5", false),
    ("&SIZE ^> 5KB", "SIZE=5", true),
    ("&SIZE ^> 6KB", "SIZE=5", true),
    ("&SIZE ^< 4KB", "SIZE=5", true),
    ("&SIZE ^< 5KB", "SIZE=5", true),
    ("&SIZE ^< 6KB", "SIZE=5", false),
    ("&BLKSIZE = 4294967295", "BLKSIZE=4294967295", true),
    ("&BLKSIZE LT 18446744073709551615", "BLKSIZE=4294967295", true),
    ("&NVOL = 2", "VOLUME=VOL001 VOLUME=VOL001", true),
    ("&NVOL = 59", "VOLUMES=59", true),
    ("&SIZE = 0GB", "SIZE=1", false),
    ("&SIZE = 1MB", "SIZE=1", false),
    ("&SIZE = 1MB", "SIZE=1000", false),
    ("&SIZE = 1MB", "SIZE=1023", false),
    ("&SIZE = 1MB", "SIZE=1024", true),
    ("&SIZE = 1MB", "SIZE=1025", false),
    ("&SIZE = 1024KB", "SIZE=1024", true),
    ("&SIZE GE 1MB", "SIZE=1023", false),
    ("&SIZE GE 1MB", "SIZE=1024", true),
    ("&SIZE GT 1MB", "SIZE=1024", false),
    ("&SIZE GT 1MB", "SIZE=1025", true),
    ("&SIZE LT 2MB", "SIZE=2047", true),
    ("&SIZE = 1GB", "SIZE=1", false),
    ("&SIZE = 1GB", "SIZE=1024", false),
    ("&SIZE = 1GB", "SIZE=1048575", false),
    ("&SIZE = 1GB", "SIZE=1048576", true),
    ("&SIZE = 1GB", "SIZE=1048577", false),
    ("&SIZE = 1024MB", "SIZE=1048576", true),
    ("&SIZE = 1048576KB", "SIZE=1048576", true),
    ("&SIZE NG 1GB", "SIZE=1048576", true),
    ("&SIZE NG 1GB", "SIZE=1048577", false),
    ("&SIZE NL 1GB", "SIZE=1048575", false),
    ("&SIZE NL 1GB", "SIZE=1048576", true),
    ("&SIZE = 0001MB", "SIZE=1024", true),
    ("&SIZE = 18446744073709551615KB", "SIZE=18446744073709551615", true),
    ("&SIZE LE 18014398509481983MB", "SIZE=18446744073709550592", true),
    ("&SIZE LE 18014398509481983MB", "SIZE=18446744073709550593", false),
    ("&SIZE LE 17592186044415GB", "SIZE=18446744073708503040", true),
    ("&SIZE LE 17592186044415GB", "SIZE=18446744073708503041", false),
    ("&MAXSIZE = 886KB", "SIZE=56 MAXSIZE=886", true),
    ("&MAXSIZE = 56KB", "SIZE=56 MAXSIZE=886", false),
    ("&MAXSIZE GT &SIZE", "SIZE=56 MAXSIZE=886", true),
    ("&SIZE GE &MAXSIZE", "SIZE=56 MAXSIZE=886", false),
    ("&MGMTCLAS = 'MC1'", "MGMTCLAS=MC1", true),
    ("&UNIT = &JOB", "", true),
    ("&UNIT NE &JOB", "UNIT=SYSDA", true),
    ("&ACCT_JOB(2) = 'X'", "ACCT_JOB= ACCT_JOB=X", true),
    ("&ACCT_JOB(1) = ''", "ACCT_JOB= ACCT_JOB=X", true),
    ("&ALLVOL = 'V1'", "VOLUME=V1 VOLUME=V1", true),
    ("&ALLVOL NE 'V1'", "VOLUME=V1 VOLUME=V1", false),
    ("&ALLVOL = 'V1'", "VOLUMES=59", true),
    ("&STORGRP = 'SG1'", "", false),
    ("&STORGRP NE 'SG1'", "", true),
    ("&STORGRP = 'SG1'", "STORGRP=SG1", true),
    ("&STORGRP NE 'SG1'", "STORGRP=SG1", false),
    ("&STORGRP = 'SG1'", "STORGRP=SG2", false),
    ("&STORGRP NE 'SG1'", "STORGRP=SG2", true),
    ("&STORGRP = 'SG1'", "STORGRP=SG2 STORGRP=SG1", true),
    ("&STORGRP NE 'SG1'", "STORGRP=SG2 STORGRP=SG1", false),
    ("&STORGRP = ''", "", true),
    ("&STORGRP NE ''", "", false),
    ("&STORGRP = ''", "STORGRP=SG1", false),
    ("&STORGRP NE ''", "STORGRP=SG1", true),
    ("&STORGRP = *", "", true),
    ("&STORGRP NE *", "", false),
    ("&STORGRP = %", "", false),
    ("&STORGRP = S*", "", false),
    ("&STORGRP NE S*", "", true),
    ("&STORGRP = S*", "STORGRP=SG1", true),
    ("&STORGRP = S*", "STORGRP=T STORGRP=SG1", true),
    ("&STORGRP = S*", "STORGRP=T STORGRP=U", false),
    ("&STORGRP NE S*", "STORGRP=T STORGRP=SG1", false),
    ("&STORGRP = SG%", "STORGRP=SG10 STORGRP=SG1", true),
    ("&STORGRP = 'SG1,SG2'", "STORGRP=SG1 STORGRP=SG2", false),
    ("&STORGRP = &UNIT", "", true),
    ("&STORGRP = &UNIT", "UNIT=SG1", false),
    ("&STORGRP = &UNIT", "STORGRP=SG1", false),
    ("&STORGRP = &UNIT", "STORGRP=SG2 STORGRP=SG1 UNIT=SG1", true),
    ("&STORGRP NE &UNIT", "STORGRP=SG2 STORGRP=SG1 UNIT=SG1", false),
    ("&STORGRP = &STORCLAS", "STORGRP=C1 STORCLAS=C1", true),
    ("&STORGRP = 'SG1' AND &STORGRP = 'SG2'", "STORGRP=SG1 STORGRP=SG2", true),
];

const VOLUMES: &str = "FILTLIST F INCLUDE(V%) EXCLUDE('V9')";

const OTHERS: &str = "FILTLIST F EXCLUDE('V1')";

#[rattlefmt::skip]
static MEMBERS: [Listed; 8] = [
    (OTHERS, "&STORGRP = &F", "", true),
    (OTHERS, "&STORGRP NE &F", "", false),
    (OTHERS, "&STORGRP = &F", "STORGRP=V1", false),
    (OTHERS, "&STORGRP = &F", "STORGRP=V1 STORGRP=V2", true),
    (VOLUMES, "&STORGRP = &F", "", false),
    (VOLUMES, "&STORGRP = &F", "STORGRP=V9 STORGRP=V8", true),
    ("FILTLIST F INCLUDE('')", "&STORGRP = &F", "", true),
    ("FILTLIST F INCLUDE('')", "&STORGRP = &F", "STORGRP=V1", false),
];

fn holds(
    alloc: Global,
    lists: &str,
    condition: &str,
    given: &str,
    wanted: bool,
) -> Result<bool, Fail> {
    let body = format!(in alloc; "{lists} IF {condition} THEN EXIT CODE(1)")?;
    ends(alloc, &body, given, if wanted { Exit(1) } else { Falls })
}

fn all_hold(alloc: Global) -> Result<bool, Fail> {
    let mut good = true;
    for (condition, given, wanted) in &QUESTIONS {
        good &= holds(alloc, "", condition, given, *wanted)?;
    }
    for (lists, condition, given, wanted) in &MEMBERS {
        good &= holds(alloc, lists, condition, given, *wanted)?;
    }
    Ok(good)
}

#[test]
fn numbers_sizes_texts_and_groups_are_compared(rt: HostRuntime) -> Result<(), Fail> {
    assert!(rt; all_hold(rt.alloc())?);
    Ok(())
}

/// All volumes of a request that names 59 times V1, as far as a line holds them.
const VOLUMES_59: &str =
    "V1,V1,V1,V1,V1,V1,V1,V1,V1,V1,V1,V1,V1,V1,V1,V1,V1,V1,V1,V1,V1,V1,V1,V1,V1,V1,V1,V1,V1,V1,V1,V1,V1,V1,V1,V1,V1";

/// Values as a line has them; the last four lines end where they are full.
#[rattlefmt::skip]
static LINES: [Run; 12] = [
    (MgmtClas, "WRITE &DATACLAS ',' &STORCLAS ',' &MGMTCLAS", "DATACLAS=DC MGMTCLAS=MC",
        "DATACLAS=DC MGMTCLAS=MC", &["DC,,MC"], Falls),
    (StorGrp, "WRITE &RETPD &BLKSIZE", "RETPD=30 BLKSIZE=4294967295", "", &["304294967295"], Falls),
    (StorGrp, "WRITE &SIZE ' ' &MAXSIZE", "SIZE=56 MAXSIZE=886", "", &["56KB 886KB"], Falls),
    (StorGrp, "WRITE &SIZE", "SIZE=18446744073709551615", "", &["18446744073709551615KB"], Falls),
    (StorGrp, "WRITE &ALLVOL", "VOLUME=V1 VOLUME=V1 VOLUME=V2", "", &["V1,V1,V2"], Falls),
    (StorGrp, "WRITE &STORGRP", "", "", &[""], Falls),
    (StorGrp, "WRITE &STORGRP ' ' &STORGRP", "STORGRP=SG2 STORGRP=SG1", "STORGRP=SG2 STORGRP=SG1",
        &["SG2,SG1 SG2,SG1"], Falls),
    (StorGrp, "WRITE &DATACLAS &STORCLAS &MGMTCLAS &STORGRP",
        "DATACLAS=U STORCLAS=V MGMTCLAS=W STORGRP=X", "DATACLAS=U STORCLAS=V MGMTCLAS=W STORGRP=X",
        &["UVWX"], Falls),
    (StorGrp, "WRITE &ANYVOL", "VOLUMES=59", "", &[VOLUMES_59], Falls),
    (MgmtClas, "WRITE 'AAAAAAAAAAAAAAAAAAAAAAAAAAAAAAAAAAAAAAAAAAAAAAAAAAAAAAAAAAAAAAAAAAAAAAAAAAAAAAAAAAAAAAAAAAAAAAAAAAAAAAAAAA' &SIZE", "SIZE=12345", "",
        &["AAAAAAAAAAAAAAAAAAAAAAAAAAAAAAAAAAAAAAAAAAAAAAAAAAAAAAAAAAAAAAAAAAAAAAAAAAAAAAAAAAAAAAAAAAAAAAAAAAAAAAAAAA1234"], Falls),
    (MgmtClas, "WRITE 'AAAAAAAAAAAAAAAAAAAAAAAAAAAAAAAAAAAAAAAAAAAAAAAAAAAAAAAAAAAAAAAAAAAAAAAAAAAAAAAAAAAAAAAAAAAAAAAAAAAAAAAA' &SIZE", "SIZE=12345", "",
        &["AAAAAAAAAAAAAAAAAAAAAAAAAAAAAAAAAAAAAAAAAAAAAAAAAAAAAAAAAAAAAAAAAAAAAAAAAAAAAAAAAAAAAAAAAAAAAAAAAAAAAAAA12345K"], Falls),
    (StorGrp, "WRITE 'AAAAAAAAAAAAAAAAAAAAAAAAAAAAAAAAAAAAAAAAAAAAAAAAAAAAAAAAAAAAAAAAAAAAAAAAAAAAAAAAAAAAAAAAAAAAAAAAAAAAAAAAA' &STORGRP", "STORGRP=SG1 STORGRP=SG2",
        "STORGRP=SG1 STORGRP=SG2", &["AAAAAAAAAAAAAAAAAAAAAAAAAAAAAAAAAAAAAAAAAAAAAAAAAAAAAAAAAAAAAAAAAAAAAAAAAAAAAAAAAAAAAAAAAAAAAAAAAAAAAAAAASG1,S"], Falls),
];

#[test]
fn lines_hold_such_values(rt: HostRuntime) -> Result<(), Fail> {
    assert!(rt; all_come(rt.alloc(), &LINES)?);
    Ok(())
}
