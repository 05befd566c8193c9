//! What words of the command line ask for.
use dsn_mask::{Mask, Name, Volser};
use smsd_words::{Asked, Running, Serving, Task, WordsErr, task_asked};
use std::alloc::Global;
use std::test::Fail;
use store_report::{Format, Listing};

// Words, and the store, the script, whether the table of volumes is asked for, whether the script is strict, and the day
// of space management behind it.
#[rattlefmt::skip]
static RUNS: &[(&[&str], &str, Option<&str>, bool, bool, Option<u32>)] = &[
    (&["run"], "desk.db", None, false, false, None),
    (&["run", "--volumes", "a"], "desk.db", Some("a"), true, false, None),
    (&["run", "a", "--store", "s", "--strict"], "s", Some("a"), false, true, None),
    (&["run", "--store=s", "--", "-a"], "s", Some("-a"), false, false, None),
    (&["run", "--manage", "20", "a"], "desk.db", Some("a"), false, false, Some(20)),
    (&["run", "--volumes", "--manage=0"], "desk.db", None, true, false, Some(0)),
];

// Words, the store and the deck.
static CHECKED: &[(&[&str], &str, &str)] = &[
    (&["check", "d"], "desk.db", "d"),
    (&["check", "--store", "s", "--", "-d"], "s", "-d"),
];

// Words, the store, the day and whether it is only told.
static MANAGED: &[(&[&str], &str, u32, bool)] = &[
    (&["manage", "3"], "desk.db", 3, false),
    (
        &["manage", "--dry-run", "9999999", "--store=s"],
        "s",
        9999999,
        true,
    ),
];

// Words, and the listing, the form, the mask, the storage group and the volume.
#[rattlefmt::skip]
static LISTS: &[(&[&str], Listing, Format, [&str; 3])] = &[
    (&["list", "sets"], Listing::Sets, Format::Csv, ["", "", ""]),
    (&["list", "sets", "--format", "text"], Listing::Sets, Format::Text, ["", "", ""]),
    (&["list", "--", "volumes"], Listing::Volumes, Format::Csv, ["", "", ""]),
    (&["list", "--format=json", "groups"], Listing::Groups, Format::Json, ["", "", ""]),
    (&["list", "groups", "--group", "SG1"], Listing::Groups, Format::Csv, ["", "SG1", ""]),
    (&["list", "classes", "--format", "json"], Listing::Classes, Format::Json, ["", "", ""]),
    (&["list", "volumes", "--group", "SG1", "--volume", "1"], Listing::Volumes, Format::Csv, ["", "SG1", "1"]),
    (&["list", "--mask", "A.**", "extents", "--volume", "V"], Listing::Extents, Format::Csv, ["A.**", "", "V"]),
];

static SERVED: &[(&[&str], (u16, u16, u32, bool))] = &[
    (&["serve"], (8080, 1000, 60, false)),
    (
        &["serve", "--port", "65535", "--log", "--idle=86400"],
        (65535, 1000, 86400, true),
    ),
    (
        &["serve", "--connections", "1", "--port", "1"],
        (1, 1, 60, false),
    ),
];

static HINDERED: &[(&[&str], WordsErr)] = &[
    (&[], WordsErr::Bad),
    (&["sets"], WordsErr::Bad),
    (&["run", "a", "b"], WordsErr::Bad),
    (&["run", "--volumes", "--volumes"], WordsErr::Bad),
    (&["run", "--store"], WordsErr::Bad),
    (&["run", "--manage"], WordsErr::Bad),
    (&["run", "--manage", "10000000"], WordsErr::Bad),
    (&["run", "--manage", "1", "--manage", "1"], WordsErr::Bad),
    (&["list"], WordsErr::Bad),
    (&["list", "set"], WordsErr::Bad),
    (&["list", "SETS"], WordsErr::Bad),
    (&["list", "sets", "--format", "xml"], WordsErr::Bad),
    (&["list", "sets", "--mask", "a"], WordsErr::Bad),
    (&["list", "volumes", "--mask", "A"], WordsErr::Bad),
    (&["list", "groups", "--volume", "V"], WordsErr::Bad),
    (&["list", "classes", "--mask", "A"], WordsErr::Bad),
    (&["list", "classes", "--group", "SG1"], WordsErr::Bad),
    (&["list", "classes", "--volume", "V"], WordsErr::Bad),
    (&["serve", "--port", "0"], WordsErr::Bad),
    (&["serve", "--port", "65536"], WordsErr::Bad),
    (&["serve", "--connections", "10001"], WordsErr::Bad),
    (&["serve", "--idle", "x"], WordsErr::Bad),
    (&["serve", "8080"], WordsErr::Bad),
    (&["check"], WordsErr::Bad),
    (&["manage"], WordsErr::Bad),
    (&["manage", "10000000"], WordsErr::Bad),
    (&["manage", "-1"], WordsErr::Bad),
    (&["manage", "1", "--dry-run", "--dry-run"], WordsErr::Bad),
    (&["help"], WordsErr::Bad),
    (&["--help"], WordsErr::Shown),
    (&["list", "-h"], WordsErr::Shown),
    (&["--version"], WordsErr::Shown),
    (&["-V"], WordsErr::Shown),
];

fn words_of(alloc: Global, list: &[&str]) -> Result<Vec<String>, Fail> {
    let mut words = Vec::new(alloc);
    for word in list {
        words.push(String::from_str(alloc, word)?)?;
    }
    Ok(words)
}

fn are_runs(alloc: Global) -> Result<bool, Fail> {
    let mut good = true;
    for (list, store, script, volumes, strict, managed) in RUNS {
        let words = words_of(alloc, list)?;
        good &= match task_asked(alloc, &words) {
            Ok(
                Asked {
                    store: named,
                    task: Task::Run {
                        script: found,
                        running,
                    },
                },
            ) => {
                named == *store
                    && found == *script
                    && running
                        == Running {
                            volumes: *volumes,
                            strict: *strict,
                            managed: *managed,
                        }
            }
            _ => false,
        };
    }
    Ok(good)
}

fn are_checked(alloc: Global) -> Result<bool, Fail> {
    let mut good = true;
    for (list, store, deck) in CHECKED {
        let words = words_of(alloc, list)?;
        good &= match task_asked(alloc, &words) {
            Ok(
                Asked {
                    store: named,
                    task: Task::Check { deck: found },
                },
            ) => named == *store && found == *deck,
            _ => false,
        };
    }
    Ok(good)
}

fn are_managed(alloc: Global) -> Result<bool, Fail> {
    let mut good = true;
    for (list, store, day, dry) in MANAGED {
        let words = words_of(alloc, list)?;
        good &= match task_asked(alloc, &words) {
            Ok(
                Asked {
                    store: named,
                    task: Task::Manage {
                        day: found,
                        dry: asked,
                    },
                },
            ) => named == *store && found == *day && asked == *dry,
            _ => false,
        };
    }
    Ok(good)
}

fn are_listed(alloc: Global) -> Result<bool, Fail> {
    let mut good = true;
    for (list, listing, format, names) in LISTS {
        let words = words_of(alloc, list)?;
        good &= match task_asked(alloc, &words) {
            Ok(
                Asked {
                    task: Task::List(query),
                    ..
                },
            ) => {
                query.listing == *listing
                    && query.format == *format
                    && mask_bytes(&query.selection.mask) == names[0].as_bytes()
                    && name_bytes(&query.selection.group) == names[1].as_bytes()
                    && volser_bytes(&query.selection.volume) == names[2].as_bytes()
            }
            _ => false,
        };
    }
    Ok(good)
}

fn mask_bytes(mask: &Option<Mask>) -> &[u8] {
    match mask {
        Some(mask) => mask.bytes(),
        None => b"",
    }
}

fn name_bytes(name: &Option<Name>) -> &[u8] {
    match name {
        Some(name) => name.bytes(),
        None => b"",
    }
}

fn volser_bytes(volser: &Option<Volser>) -> &[u8] {
    match volser {
        Some(volser) => volser.bytes(),
        None => b"",
    }
}

fn are_served(alloc: Global) -> Result<bool, Fail> {
    let mut good = true;
    for (list, (port, connections, idle, log)) in SERVED {
        let words = words_of(alloc, list)?;
        let wanted = Serving {
            port: *port,
            connections: *connections,
            idle: *idle,
            log: *log,
        };
        good &= match task_asked(alloc, &words) {
            Ok(
                Asked {
                    task: Task::Serve(serving),
                    ..
                },
            ) => serving == wanted,
            _ => false,
        };
    }
    Ok(good)
}

fn are_hindered(alloc: Global) -> Result<bool, Fail> {
    let mut good = true;
    for (list, wanted) in HINDERED {
        let words = words_of(alloc, list)?;
        good &= match task_asked(alloc, &words) {
            Ok(_) => false,
            Err(err) => err == *wanted,
        };
    }
    Ok(good)
}

#[test]
fn words_in_any_order_ask_for_a_task(rt: HostRuntime) -> Result<(), Fail> {
    let alloc = rt.alloc();
    let good = are_runs(alloc)? && are_listed(alloc)? && are_served(alloc)? && are_checked(alloc)?;
    assert!(rt; good && are_managed(alloc)?);
    Ok(())
}

#[test]
fn other_words_ask_for_nothing(rt: HostRuntime) -> Result<(), Fail> {
    assert!(rt; are_hindered(rt.alloc())?);
    Ok(())
}
