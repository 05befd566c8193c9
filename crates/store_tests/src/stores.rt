//! What is answered and listed of a store.
use crate::calls::{all, check, due, list, manage, run};
use desk_calls::RunStatus;
use dsn_mask::{Dsn, Mask, Name, Volser};
use sms_construct::{Op, Reply, Request, RequestNumber};
use sms_keeper::{Change, Effect, FaultKeeper, Keeper, MemKeeper};
use sms_open::OpenErr;
use sms_script::ScriptErr;
use std::alloc::Global;
use std::test::Fail;
use store_calls::StoreStatus;
use store_report::{Format, Listing, Query, Selection};

const DONE: StoreStatus = StoreStatus::Ran(RunStatus::Done);

const MONDAY: &str = "\
SMSADMIN 1 ACTIVATE
version = 1
[dataclass.DC1]
space = \"(TRK,(5,2))\"
volcount = 3
[dataclass.DC2]
eattr = \"OPT\"
[storclass.SC1]
[mgmtclass.MC1]
release = \"YES\"
[mgmtclass.MC2]
expire_after = 30
[storgroup.SG1.volume.VOL001]
tracks = 100
[routine]
storclass = \"PROC STORCLAS SET &STORCLAS = 'SC1' END\"
mgmtclass = \"PROC MGMTCLAS SET &MGMTCLAS = 'MC1' END\"
storgroup = \"PROC STORGRP SET &STORGRP = 'SG1' END\"
./END
JOB1 1 ALLOC PAY.MASTER SPACE=(TRK,(10,5)) DAY=7
JOB1 2 ALLOC A.B SPACE=(TRK,3)
";

const TUESDAY: &str = "\
JOB1 3 EXTEND PAY.MASTER
JOB1 4 USED PAY.MASTER 12
JOB1 2 ALLOC A.B SPACE=(TRK,3)
";

const TUESDAYS_ANSWERS: &str = "\
1 4 4 JOB1 3 A02 EXTENDED
  EXTENT VOL001 13 5
2 5 5 JOB1 4 A08 NOTED
3 6 3 JOB1 2 A00 GRANTED
  CLASS - SC1 MC1 SG1
  EXTENT VOL001 10 3
END 3 3
volser,group,status,capacity,free,extents
VOL001,SG1,ENABLE,100,82,3
";

// The lists behind both scripts, and of an empty store.
#[rattlefmt::skip]
static LISTS: &[(Listing, Format, &str, &str)] = &[
    (Listing::Groups, Format::Csv, "group,volumes,capacity,free\nSG1,1,100,82\n", "group,volumes,capacity,free\n"),
    (Listing::Groups, Format::Json,
        "{\"groups\":[{\"group\":\"SG1\",\"volumes\":1,\"capacity\":100,\"free\":82}]}\n", "{\"groups\":[]}\n"),
    (Listing::Volumes, Format::Csv,
        "volser,group,status,capacity,free,extents,high,low,longest_gap\nVOL001,SG1,ENABLE,100,82,3,85,1,82\n",
        "volser,group,status,capacity,free,extents,high,low,longest_gap\n"),
    (Listing::Volumes, Format::Json,
        "{\"volumes\":[{\"volser\":\"VOL001\",\"group\":\"SG1\",\"status\":\"ENABLE\",\"capacity\":100,\"free\":82,\
        \"extents\":3,\"high\":85,\"low\":1,\"longest_gap\":82}]}\n",
        "{\"volumes\":[]}\n"),
    (Listing::Classes, Format::Csv,
        "kind,name,unit,primary,secondary,volcount,eattr,multi_tier,expire_after,release\n\
        DATACLAS,DC1,TRK,5,2,3,NO,,,\nDATACLAS,DC2,,,,,OPT,,,\nSTORCLAS,SC1,,,,,,NO,,\n\
        MGMTCLAS,MC1,,,,,,,,YES\nMGMTCLAS,MC2,,,,,,,30,NO\n",
        "kind,name,unit,primary,secondary,volcount,eattr,multi_tier,expire_after,release\n"),
    (Listing::Classes, Format::Json,
        "{\"dataclas\":[{\"name\":\"DC1\",\"unit\":\"TRK\",\"primary\":5,\"secondary\":2,\"volcount\":3,\"eattr\":\"NO\"},\
        {\"name\":\"DC2\",\"unit\":null,\"primary\":null,\"secondary\":null,\"volcount\":null,\"eattr\":\"OPT\"}],\
        \"storclas\":[{\"name\":\"SC1\",\"multi_tier\":false}],\
        \"mgmtclas\":[{\"name\":\"MC1\",\"expire_after\":null,\"release\":true},\
        {\"name\":\"MC2\",\"expire_after\":30,\"release\":false}]}\n",
        "{\"dataclas\":[],\"storclas\":[],\"mgmtclas\":[]}\n"),
    (Listing::Sets, Format::Csv,
        "dsn,dataclas,storclas,mgmtclas,group,day,used,extents\n\
        A.B,,SC1,MC1,SG1,0,0,1\nPAY.MASTER,,SC1,MC1,SG1,7,12,2\n",
        "dsn,dataclas,storclas,mgmtclas,group,day,used,extents\n"),
    (Listing::Extents, Format::Csv,
        "dsn,volser,start,length\nA.B,VOL001,10,3\nPAY.MASTER,VOL001,0,10\nPAY.MASTER,VOL001,13,5\n",
        "dsn,volser,start,length\n"),
    (Listing::Extents, Format::Text,
        "dsn                                           volser  start       length\n\
        A.B                                           VOL001  10          3\n\
        PAY.MASTER                                    VOL001  0           10\n\
        PAY.MASTER                                    VOL001  13          5\n",
        "dsn                                           volser  start       length\n"),
    (Listing::Extents, Format::Json,
        "{\"extents\":[{\"dsn\":\"A.B\",\"volser\":\"VOL001\",\"start\":10,\"tracks\":3},\
        {\"dsn\":\"PAY.MASTER\",\"volser\":\"VOL001\",\"start\":0,\"tracks\":10},\
        {\"dsn\":\"PAY.MASTER\",\"volser\":\"VOL001\",\"start\":13,\"tracks\":5}]}\n",
        "{\"extents\":[]}\n"),
];

const HEADER: &[u8] = b"dsn,volser,start,length\n";

// A mask, a storage group and a volume, and the names of the data sets that fit, as a list of them has them.
#[rattlefmt::skip]
static PICKED: &[([&str; 3], &str)] = &[
    (["PAY.**", "", ""], "PAY.MASTER,VOL001,0,10\nPAY.MASTER,VOL001,13,5\n"),
    (["*.B", "SG1", "VOL001"], "A.B,VOL001,10,3\n"),
    (["", "SG2", ""], ""),
    (["", "", "VOL002"], ""),
];

// A deck, whether it would be active behind both scripts, and what it would be answered.
#[rattlefmt::skip]
static DECKS: &[(&str, bool, &str)] = &[
    ("version = 1\n[storgroup.SG1.volume.VOL001]\ntracks = 100\n", true,
        "A04 ACTIVATED 2\n- DATACLAS DC1 space=(TRK,(5,2)) volcount=3 eattr=NO\n- DATACLAS DC2 eattr=OPT\n\
        - STORCLAS SC1 multi_tier=NO\n- MGMTCLAS MC1 release=YES\n- MGMTCLAS MC2 expire_after=30 release=NO\n\
        - ROUTINE STORCLAS\n- ROUTINE MGMTCLAS\n- ROUTINE STORGRP\n"),
    ("version = 1\n[storgroup.SG1.volume.VOL001]\ntracks = 99\n", false,
        "R22 VOLUME IN USE VOL001\n- DATACLAS DC1 space=(TRK,(5,2)) volcount=3 eattr=NO\n- DATACLAS DC2 eattr=OPT\n\
        - STORCLAS SC1 multi_tier=NO\n- MGMTCLAS MC1 release=YES\n- MGMTCLAS MC2 expire_after=30 release=NO\n\
        - VOLUME VOL001 group=SG1 status=ENABLE tracks=100\n\
        + VOLUME VOL001 group=SG1 status=ENABLE tracks=99\n\
        - ROUTINE STORCLAS\n- ROUTINE MGMTCLAS\n- ROUTINE STORGRP\n"),
    ("version = 2\n[storclass.SC1]\nmulti_tier = \"YES\"\n[mgmtclass.MC1]\nrelease = \"YES\"\n\
        [mgmtclass.MC2]\nexpire_after = 31\n[dataclass.DC1]\nspace = \"(TRK,(5,2))\"\nvolcount = 3\n\
        [dataclass.DC2]\neattr = \"OPT\"\n[storgroup.SG1]\nhigh = 90\n[storgroup.SG1.volume.VOL001]\ntracks = 100\n\
        [storgroup.SG1.volume.VOL002]\ntracks = 7\nstatus = \"QUINEW\"\n[routine]\n\
        storclass = \"PROC STORCLAS SET &STORCLAS = 'SC1' END\"\n\
        mgmtclass = \"PROC MGMTCLAS SET &MGMTCLAS = 'MC2' END\"\n", true,
        "A04 ACTIVATED 2\n- STORCLAS SC1 multi_tier=NO\n+ STORCLAS SC1 multi_tier=YES\n\
        - MGMTCLAS MC2 expire_after=30 release=NO\n+ MGMTCLAS MC2 expire_after=31 release=NO\n\
        - STORGRP SG1 status=ENABLE high=85 low=1 overflow=NO breakpoint=10\n\
        + STORGRP SG1 status=ENABLE high=90 low=1 overflow=NO breakpoint=10\n\
        + VOLUME VOL002 group=SG1 status=QUINEW tracks=7\n\
        - ROUTINE MGMTCLAS\n+ ROUTINE MGMTCLAS\n- ROUTINE STORGRP\n"),
    ("version = 1\n[storgroup.SG1.volume.VOL001]\ntracks = 0\n", false,
        "R21 DECK K4 storgroup.SG1.volume.VOL001.tracks\n"),
];

// A script of which something is due, and in which the job of space management has used a number.
const DAILY: &str = "\
SMSADMIN 1 ACTIVATE
version = 1
[storclass.SC1]
[mgmtclass.MCT]
expire_after = 2
release = \"YES\"
[storgroup.SG1.volume.VOL001]
tracks = 100
[routine]
storclass = \"PROC STORCLAS SET &STORCLAS = 'SC1' END\"
mgmtclass = \"PROC MGMTCLAS SET &MGMTCLAS = 'MCT' END\"
storgroup = \"PROC STORGRP SET &STORGRP = 'SG1' END\"
./END
JOB1 1 ALLOC A.A SPACE=(TRK,10) DAY=1
JOB1 2 ALLOC A.B SPACE=(TRK,10) DAY=3
JOB1 3 ALLOC A.C SPACE=(TRK,10) DAY=1 RETPD=5
SMSMGMT 9 USED A.B 4
";

// Days one behind the other, what is due then, what is answered, and the volume behind it.
#[rattlefmt::skip]
static DAYS: &[(u32, &str, &str, &str)] = &[
    (3, "DUE A.A DELETE\nDUE A.B RELEASE\nDUE A.C RELEASE\n",
        "MANAGE 10 A.A A03 DELETED 10\nMANAGE 11 A.B A09 RELEASED 6\nMANAGE 12 A.C A09 RELEASED 9\nMANAGED 1 2\n",
        "\nVOL001,SG1,ENABLE,100,95,2,85,1,79\n"),
    (3, "", "MANAGED 0 0\n", "\nVOL001,SG1,ENABLE,100,95,2,85,1,79\n"),
    (6, "DUE A.B DELETE\nDUE A.C DELETE\n",
        "MANAGE 13 A.B A03 DELETED 4\nMANAGE 14 A.C A03 DELETED 1\nMANAGED 2 0\n",
        "\nVOL001,SG1,ENABLE,100,100,0,85,1,100\n"),
];

// Whether each day is told and then done, each act once, and leaves the volume so.
fn is_managed(alloc: Global) -> Result<bool, Fail> {
    let (first, _, mut keeper) = run(alloc, DAILY, false, None, MemKeeper::new(alloc))?;
    let mut good = first == DONE;
    for (day, told, text, volume) in DAYS {
        let (status, out, store) = due(alloc, *day, keeper)?;
        good &= status == DONE && out.taken() == told.as_bytes();
        let (status, out, store) = manage(alloc, *day, None, store)?;
        good &= status == DONE && out.taken() == text.as_bytes();
        let (status, out, store) = list(alloc, &all(Listing::Volumes, Format::Csv), None, store)?;
        good &= status == DONE && out.taken().ends_with(volume.as_bytes());
        keeper = store;
    }
    Ok(good)
}

// Whether nothing is done on a store that can't be made ready, and a front is written where a write fails.
fn is_hindered(alloc: Global) -> Result<bool, Fail> {
    let (failed, out, _) = manage(alloc, 3, None, FaultKeeper::new(alloc, &[0])?)?;
    let mut good = failed == StoreStatus::Unopened(OpenErr::Failed) && out.taken().is_empty();
    let (status, out, _) = due(alloc, 3, FaultKeeper::new(alloc, &[0])?)?;
    good &= status == DONE && out.taken().is_empty();
    let (cut, out, _) = manage(alloc, 3, Some(2), MemKeeper::new(alloc))?;
    good &= cut == StoreStatus::Ran(RunStatus::WriteFault) && out.taken() == b"MANAGED".as_slice();
    Ok(good)
}

// Whether each deck is answered so, and the store stays.
fn is_checked(alloc: Global, store: MemKeeper) -> Result<(bool, MemKeeper), Fail> {
    let mut good = true;
    let mut keeper = store;
    for (deck, active, wanted) in DECKS {
        let (status, would, out, back) = check(alloc, deck, keeper)?;
        good &= status == DONE && would == *active && out.taken() == wanted.as_bytes();
        keeper = back;
    }
    Ok((good, keeper))
}

// Whether the second script goes on where the first ended, and the lists tell what both left.
fn goes_on(alloc: Global) -> Result<bool, Fail> {
    let (first, _, keeper) = run(alloc, MONDAY, false, None, MemKeeper::new(alloc))?;
    let (second, out, keeper) = run(alloc, TUESDAY, true, None, keeper)?;
    let answered = out.taken() == TUESDAYS_ANSWERS.as_bytes();
    let (checked, keeper) = is_checked(alloc, keeper)?;
    let (listed, keeper) = is_listed(alloc, false, keeper)?;
    let picked = is_picked(alloc, keeper)?;
    Ok(first == DONE && second == DONE && answered && checked && listed && picked)
}

// Whether each list of the store is that behind both scripts, or of an empty store.
fn is_listed(alloc: Global, is_empty: bool, store: MemKeeper) -> Result<(bool, MemKeeper), Fail> {
    let mut good = true;
    let mut keeper = store;
    for (listing, format, full, empty) in LISTS {
        let query = all(*listing, *format);
        let (status, out, back) = list(alloc, &query, None, keeper)?;
        let wanted = if is_empty { *empty } else { *full };
        good &= status == DONE && out.taken() == wanted.as_bytes();
        keeper = back;
    }
    Ok((good, keeper))
}

// Whether the extents that are asked for are listed, and no others.
fn is_picked(alloc: Global, store: MemKeeper) -> Result<bool, Fail> {
    let mut good = true;
    let mut keeper = store;
    for ([mask, group, volume], wanted) in PICKED {
        let query = Query {
            listing: Listing::Extents,
            selection: Selection {
                mask: Mask::parse(mask.as_bytes()).ok(),
                group: Name::new(group.as_bytes()),
                volume: Volser::new(volume.as_bytes()),
            },
            format: Format::Csv,
        };
        let (status, out, back) = list(alloc, &query, None, keeper)?;
        let text = out.taken();
        good &= status == DONE && text.starts_with(HEADER) && text.ends_with(wanted.as_bytes());
        good &= text.len() == HEADER.len() + wanted.len();
        keeper = back;
    }
    Ok(good)
}

// A store with a kept reply that no desk leaves.
fn unsound(alloc: Global) -> Result<MemKeeper, Fail> {
    let mut keeper = MemKeeper::new(alloc);
    let request = asked().ok_or("form")?;
    let change = Change {
        place: 1,
        request,
        reply: Reply::JournalFull,
        effect: Effect::Nothing,
    };
    if !change.suits() || keeper.commit(&change).is_err() {
        return Err("the change isn't made".into());
    }
    Ok(keeper)
}

// A request of a job.
fn asked() -> Option<Request> {
    Some(Request {
        job: Name::new(b"JOB1")?,
        number: RequestNumber::new(1)?,
        op: Op::Extend(Dsn::parse(b"A.B").ok()?),
    })
}

// Whether nothing is written where no desk goes on, where a script has a fault, and of a list behind a fault.
fn refuses(alloc: Global) -> Result<bool, Fail> {
    let (failed, out, _) = run(alloc, MONDAY, false, None, FaultKeeper::new(alloc, &[0])?)?;
    let mut good = failed == StoreStatus::Unopened(OpenErr::Failed) && failed.code() == 10;
    good &= out.taken().is_empty();
    let (damaged, out, _) = run(alloc, MONDAY, false, None, unsound(alloc)?)?;
    good &= damaged == StoreStatus::Unopened(OpenErr::Unsound(6)) && damaged.code() == 11;
    good &= out.taken().is_empty();
    let (fault, out, _) = run(alloc, "JOB1 1\n", false, None, MemKeeper::new(alloc))?;
    good &= fault == StoreStatus::Ran(RunStatus::Script(ScriptErr::BadLine(1)));
    good &= out.taken().is_empty();
    Ok(good)
}

// Whether a front is written where a write fails, and a list doesn't make a store ready.
fn writes_a_front(alloc: Global) -> Result<bool, Fail> {
    let query = all(Listing::Extents, Format::Csv);
    let (cut, out, _) = list(alloc, &query, Some(2), MemKeeper::new(alloc))?;
    let mut good = cut == StoreStatus::Ran(RunStatus::WriteFault)
        && out.taken() == b"dsn,vol".as_slice();
    let (status, _, _) = list(alloc, &query, None, FaultKeeper::new(alloc, &[0])?)?;
    good &= status == DONE;
    Ok(good)
}

#[test]
fn a_second_script_goes_on_and_lists_tell_what_both_left(rt: HostRuntime) -> Result<(), Fail> {
    assert!(rt; goes_on(rt.alloc())?);
    Ok(())
}

#[test]
fn lists_of_an_empty_store_have_no_row(rt: HostRuntime) -> Result<(), Fail> {
    let alloc = rt.alloc();
    let (good, _) = is_listed(alloc, true, MemKeeper::new(alloc))?;
    assert!(rt; good);
    Ok(())
}

#[test]
fn a_day_is_told_and_done_under_numbers_of_its_own(rt: HostRuntime) -> Result<(), Fail> {
    let alloc = rt.alloc();
    assert!(rt; is_managed(alloc)? && is_hindered(alloc)?);
    Ok(())
}

#[test]
fn what_fails_is_told(rt: HostRuntime) -> Result<(), Fail> {
    let alloc = rt.alloc();
    assert!(rt; refuses(alloc)? && writes_a_front(alloc)?);
    Ok(())
}
