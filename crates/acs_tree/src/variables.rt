//! The table of variables (docs/manual/acs-language.md, Variables).
ghost use Rattle.std.specs.Prelude.{◌≡◌, ◌==◌, List, ℕ, filter, length, map};
ghost use Rattle.acs_tree.specs.declared.variable.Variable.{Variable as VariableOf};
ghost use Rattle.acs_tree.specs.Variables.{Row, look_up, variable_of, variables};

use crate::ident::Ident;
use crate::kind::Kind;
use crate::variable::{Indexing, Variable, VariableKind};
use desk_common::{MAX_FIELDS, MAX_QUALIFIERS, are_same};

const TEXT: Variable = Variable {
    kind: VariableKind::Text,
    indexing: Indexing::Never,
    set_by: None,
};

const NUMBER: Variable = Variable {
    kind: VariableKind::Number,
    ..TEXT
};

const SIZE: Variable = Variable {
    kind: VariableKind::Size,
    ..TEXT
};

const VOLUMES: Variable = Variable {
    kind: VariableKind::Volumes,
    ..TEXT
};

const QUALIFIERS: Variable = Variable {
    indexing: Indexing::Maybe(MAX_QUALIFIERS),
    ..TEXT
};

const ACCOUNT: Variable = Variable {
    indexing: Indexing::Always(MAX_FIELDS as u64),
    ..TEXT
};

const DATACLAS: Variable = Variable {
    set_by: Some(Kind::DataClas),
    ..TEXT
};

const STORCLAS: Variable = Variable {
    set_by: Some(Kind::StorClas),
    ..TEXT
};

const MGMTCLAS: Variable = Variable {
    set_by: Some(Kind::MgmtClas),
    ..TEXT
};

const STORGRP: Variable = Variable {
    kind: VariableKind::Groups,
    indexing: Indexing::Never,
    set_by: Some(Kind::StorGrp),
};

const OF_TWO: [(&[u8], Variable); 1] = [(b"DD", TEXT)];

const OF_THREE: [(&[u8], Variable); 5] = [
    (b"DSN", QUALIFIERS),
    (b"HLQ", TEXT),
    (b"LLQ", TEXT),
    (b"JOB", TEXT),
    (b"PGM", TEXT),
];

const OF_FOUR: [(&[u8], Variable); 5] = [
    (b"USER", TEXT),
    (b"UNIT", TEXT),
    (b"SIZE", SIZE),
    (b"NVOL", NUMBER),
    (b"MEMN", TEXT),
];

const OF_FIVE: [(&[u8], Variable); 8] = [
    (b"NQUAL", NUMBER),
    (b"GROUP", TEXT),
    (b"DSORG", TEXT),
    (b"EXPDT", TEXT),
    (b"RETPD", NUMBER),
    (b"XMODE", TEXT),
    (b"LABEL", TEXT),
    (b"MSVGP", TEXT),
];

const OF_SIX: [(&[u8], Variable); 9] = [
    (b"APPLIC", TEXT),
    (b"RECORG", TEXT),
    (b"DSTYPE", TEXT),
    (b"ANYVOL", VOLUMES),
    (b"ALLVOL", VOLUMES),
    (b"MEMHLQ", TEXT),
    (b"MEMLLQ", TEXT),
    (b"MSPARM", TEXT),
    (b"MSPOOL", TEXT),
];

const OF_SEVEN: [(&[u8], Variable); 10] = [
    (b"STORGRP", STORGRP),
    (b"DSNTYPE", TEXT),
    (b"DSOWNER", TEXT),
    (b"BLKSIZE", NUMBER),
    (b"FILENUM", NUMBER),
    (b"MAXSIZE", SIZE),
    (b"SYSNAME", TEXT),
    (b"SYSPLEX", TEXT),
    (b"LIBNAME", TEXT),
    (b"MSPDEST", TEXT),
];

const OF_EIGHT: [(&[u8], Variable); 8] = [
    (b"DATACLAS", DATACLAS),
    (b"STORCLAS", STORCLAS),
    (b"MGMTCLAS", MGMTCLAS),
    (b"MEMNQUAL", NUMBER),
    (b"ACCT_JOB", ACCOUNT),
    (b"ACSENVIR", TEXT),
    (b"ACSENVR2", TEXT),
    (b"MSPOLICY", TEXT),
];

const OF_NINE: [(&[u8], Variable); 1] = [(b"ACCT_STEP", ACCOUNT)];

const OF_TWELVE: [(&[u8], Variable); 3] = [
    (b"DEF_DATACLAS", TEXT),
    (b"DEF_STORCLAS", TEXT),
    (b"DEF_MGMTCLAS", TEXT),
];

impl Variable {
    /// The variable of that name, which stands without its ampersand.
    pub fn named(name: &Ident) -> Option<Self>
        ensures { result ≡ variable_of name.now }
    {
        let bytes = name.bytes();
        look_up(with_length(bytes.len()), bytes)
    }
}

// The rows whose names have so many bytes.
fn with_length(count: usize) -> &'static [(&'static [u8], Variable)]
    ensures { map (λ row. (row.0.now, row.1)) result.now ≡ map {B = List ℕ × VariableOf}
        (λ (row : Row). (row.0, row.1.variable)) (filter (λ (row : Row). length row.0 == count) variables) }
{
    match count {
        2 => &OF_TWO,
        3 => &OF_THREE,
        4 => &OF_FOUR,
        5 => &OF_FIVE,
        6 => &OF_SIX,
        7 => &OF_SEVEN,
        8 => &OF_EIGHT,
        9 => &OF_NINE,
        12 => &OF_TWELVE,
        _ => &[],
    }
}

fn look_up(mut rows: &[(&[u8], Variable)], name: &[u8]) -> Option<Variable>
    ensures { result ≡ look_up (map (λ row. (row.0.now, row.1)) rows.entry.now) name.now }
{
    while let [row, rest @ ..] = rows {
        if are_same(name, row.0) {
            return Some(row.1);
        }
        rows = rest;
    }
    None
}
