//! What statements do, one after another, as far as no ALLOC shows it.
use crate::runs::{Run, all_come, ends};
use acs_tree::Ending::{self, Exit, Falls};
use acs_tree::Kind::{StorClas, StorGrp};
use std::alloc::Global;
use std::test::Fail;

/// What stands in a routine for storage groups, what its run is given, and how it ends.
type Ended = (&'static str, &'static str, Ending);

const FIFTEEN: &str =
    "STORGRP=A STORGRP=B STORGRP=C STORGRP=D STORGRP=E STORGRP=F STORGRP=G STORGRP=H STORGRP=I STORGRP=J STORGRP=K STORGRP=L STORGRP=M STORGRP=N STORGRP=O";

#[rattlefmt::skip]
static RUNS: [Run; 16] = [
    (StorClas, "SET &STORCLAS = ''", "DATACLAS=DC1 STORCLAS=SC1 MGMTCLAS=MC1",
        "DATACLAS=DC1 MGMTCLAS=MC1", &[], Falls),
    (StorClas, "SET &STORCLAS = &LLQ SET &STORCLAS = &STORCLAS WRITE &STORCLAS", "DSN=A.B.C-1",
        "STORCLAS=C-1", &["C-1"], Falls),
    (StorGrp, "SET &STORGRP = 'SG1'", "", "STORGRP=SG1", &[], Falls),
    (StorGrp, "SET &STORGRP = 'SG2', 'SG1'", "STORGRP=SG3 STORCLAS=SC1 MGMTCLAS=MC1",
        "STORGRP=SG2 STORGRP=SG1 STORCLAS=SC1 MGMTCLAS=MC1", &[], Falls),
    (StorGrp, "SET &STORGRP = 'SG1', 'SG2' SET &STORGRP = 'SG3'", "", "STORGRP=SG3", &[], Falls),
    (StorGrp, "SET &STORGRP = ''", "STORGRP=SG1 STORGRP=SG2 STORCLAS=SC1", "STORCLAS=SC1", &[],
        Falls),
    (StorGrp,
        "SET &STORGRP = 'SG1' WRITE &STORGRP SET &STORGRP = '' WRITE &STORGRP SET &STORGRP = 'SG3', 'SG1' WRITE &STORGRP EXIT CODE(1) SET &STORGRP = 'SG9'",
        "", "STORGRP=SG3 STORGRP=SG1", &["SG1", "", "SG3,SG1"], Exit(1)),
    (StorGrp, "SET &STORGRP = 'A','B','C','D','E','F','G','H','I','J','K','L','M','N','O'",
        "STORGRP=P", FIFTEEN, &[], Falls),
    (StorGrp, "WRITE &STORGRP SET &STORGRP = 'O'", FIFTEEN, "STORGRP=O",
        &["A,B,C,D,E,F,G,H,I,J,K,L,M,N,O"], Falls),
    (StorGrp, "IF &STORGRP NE 'SG1' THEN SET &STORGRP = 'SG2'", "STORGRP=SG1 STORGRP=SG3",
        "STORGRP=SG1 STORGRP=SG3", &[], Falls),
    (StorGrp,
        "SET &STORGRP = '' SELECT (&STORGRP) WHEN (SG*) EXIT CODE(1) WHEN (*) EXIT CODE(2) END",
        "STORGRP=SG1", "", &[], Exit(2)),
    (StorClas, "EXIT", "", "", &[], Exit(0)),
    (StorClas, "EXIT CODE(0)", "", "", &[], Exit(0)),
    (StorClas,
        "WRITE 'ONE' SET &STORCLAS = 'SC2' EXIT CODE(4) SET &STORCLAS = 'SC3' WRITE 'TWO' EXIT CODE(5)",
        "DATACLAS=DC1 STORCLAS=SC1", "DATACLAS=DC1 STORCLAS=SC2", &["ONE"], Exit(4)),
    (StorClas, "DO WRITE 'ONE' DO EXIT END WRITE 'TWO' END WRITE 'THREE'", "", "", &["ONE"],
        Exit(0)),
    (StorGrp,
        "IF &STORGRP = '' THEN SET &STORGRP = 'SG1', 'SG2' IF &STORGRP = 'SG2' THEN WRITE 'SET' ELSE WRITE 'NONE'",
        "", "STORGRP=SG1 STORGRP=SG2", &["SET"], Falls),
];

const SIZES: &str =
    "SELECT (&SIZE) WHEN (0KB) EXIT CODE(1) WHEN (1MB, 1GB) EXIT CODE(2) WHEN (&MAXSIZE) EXIT CODE(3) OTHERWISE EXIT CODE(4) END";

const GROUP_ITEMS: &str =
    "SELECT (&STORGRP) WHEN ('SG1') EXIT CODE(1) WHEN ('') EXIT CODE(2) OTHERWISE EXIT CODE(3) END";

/// A subject is compared with each item.
static SUBJECTS: [Ended; 7] = [
    (SIZES, "SIZE=1024", Exit(2)),
    (SIZES, "SIZE=1048576", Exit(2)),
    (SIZES, "SIZE=1025", Exit(4)),
    (GROUP_ITEMS, "", Exit(2)),
    (GROUP_ITEMS, "STORGRP=SG1", Exit(1)),
    (GROUP_ITEMS, "STORGRP=SG2 STORGRP=SG1", Exit(1)),
    (GROUP_ITEMS, "STORGRP=SG2", Exit(3)),
];

fn all_end(alloc: Global) -> Result<bool, Fail> {
    let mut good = true;
    for (body, given, ending) in &SUBJECTS {
        good &= ends(alloc, body, given, *ending)?;
    }
    Ok(good)
}

#[test]
fn a_set_replaces_what_was_held_and_an_exit_ends_the_run(rt: HostRuntime) -> Result<(), Fail> {
    assert!(rt; all_come(rt.alloc(), &RUNS)? && all_end(rt.alloc())?);
    Ok(())
}
