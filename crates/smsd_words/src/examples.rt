//! What each command does, with an example.
use std::alloc::{AllocError, Global};

const RUN: &str = "
smsd run [SCRIPT]    answer a script on the store: the one in the file SCRIPT, or
                     the one on standard input; with --volumes the table of
                     volumes stands behind the answers; with --manage DAY space
                     is managed behind the script, as smsd manage does it; with
                     --strict the exit status is 1 where an answer is an R, F
                     or M

    smsd run morning.txt --manage 20 --store payroll.db
";

const LIST: &str = "
smsd list WHAT       list what the store holds: WHAT is groups, volumes, classes,
                     sets or extents; nothing changes. --mask MASK, --group NAME
                     and --volume VOLSER take the rows that fit, of classes all;
                     --format is csv, comma-separated values, json, or text,
                     as columns

    smsd list sets --mask 'PAY.**' --group SG1 --store payroll.db
";

const SERVE: &str = "
smsd serve           serve the store over HTTP on 127.0.0.1, until it is ended:
                     --port N, 8080 where it isn't named; --connections N at
                     once, 1000; --idle N, the seconds after which a connection
                     at which nothing happens is closed, 60; with --log a line
                     on standard error for each connection that ends

    smsd serve --port 9000 --store payroll.db
";

const CHECK: &str = "
smsd check DECK      say what an ACTIVATE of the deck in the file DECK would be
                     answered on the store; nothing changes

    smsd check new.toml --store payroll.db
";

const MANAGE: &str = "
smsd manage DAY      do space management on the store: data sets that have
                     expired on the day are deleted, and others give back the
                     tracks that they don't use; --dry-run says what is due, and
                     nothing changes

    smsd manage 20 --dry-run --store payroll.db
";

const DOCUMENT: &str = "
The store is the file after --store, or desk.db in the current folder. run and
serve make it where it is missing. docs/manual/smsd.md has what each command does
and prints, and the exit statuses.
";

/// What the command that this word names does, or what each does where it names none.
pub fn examples_of(alloc: Global, word: &str) -> Result<String, AllocError> {
    match word {
        "run" => format!(in alloc; "{RUN}{DOCUMENT}"),
        "list" => format!(in alloc; "{LIST}{DOCUMENT}"),
        "serve" => format!(in alloc; "{SERVE}{DOCUMENT}"),
        "check" => format!(in alloc; "{CHECK}{DOCUMENT}"),
        "manage" => format!(in alloc; "{MANAGE}{DOCUMENT}"),
        _ => format!(in alloc; "{RUN}{LIST}{SERVE}{CHECK}{MANAGE}{DOCUMENT}"),
    }
}

const LIST_VALUES: &str = "WHAT is groups, volumes, classes, sets or extents; --mask a mask of \
    data set names, for sets and extents alone; --group the name of a storage group, not for \
    classes; --volume a serial, neither for groups nor for classes; --format csv, json or text";

const SERVE_VALUES: &str = "--port is a number of 1 to 65535, --connections one of 1 to 10000, \
    and --idle one of 1 to 86400";

const RUN_VALUES: &str = "--manage is a number of 0 to 9999999";

const MANAGE_VALUES: &str = "DAY is a number of 0 to 9999999";

/// Which values the words of a command have; empty where each is one.
pub fn values_wanted(words: &[String]) -> &'static str {
    match words.first() {
        Some(word) if word.as_str() == "run" => RUN_VALUES,
        Some(word) if word.as_str() == "list" => LIST_VALUES,
        Some(word) if word.as_str() == "serve" => SERVE_VALUES,
        Some(word) if word.as_str() == "manage" => MANAGE_VALUES,
        _ => "",
    }
}
