//! Variables by what they read.
ghost use Rattle.std.specs.Prelude.{◌≡◌, ◌==◌, List, ℕ, filter, length, map};
ghost use Rattle.acs_tree.specs.Variables.{look_up};
ghost use Rattle.acs_code.specs.Fields.{field_of, fields};
ghost use Rattle.acs_code.specs.declared.field.Field.{Field as FieldOf};

use acs_tree::Ident;

/// A text that stands in the input or among the values.
#[derive(Clone, Copy)]
pub enum TextField {
    DataClas,
    StorClas,
    MgmtClas,
    Job,
    User,
    Group,
    Pgm,
    Dd,
    Applic,
    Device,
    Dsorg,
    Recorg,
    Dsntype,
    Dsowner,
    Expdt,
    AcctJob,
    AcctStep,
    Sysname,
    Sysplex,
    DefDataClas,
    DefStorClas,
    DefMgmtClas,
    Null,
}

/// A number of the input, or 0.
#[derive(Clone, Copy)]
pub enum NumberField {
    Nqual,
    Retpd,
    Blksize,
    Zero,
    Nvol,
}

/// What a variable reads, told by its name. The variables that are always 0 are one, and so are those that are always
/// null, which every other name is too.
#[derive(Clone, Copy)]
pub enum Field {
    Text(TextField),
    Number(NumberField),
    Dsn,
    Hlq,
    Llq,
    Groups,
    Dstype,
    Size,
    MaxSize,
    AnyVolume,
    AllVolumes,
    Acsenvir,
    Xmode,
}

const OF_TWO: [(&[u8], Field); 1] = [(b"DD", Field::Text(TextField::Dd))];

const OF_THREE: [(&[u8], Field); 5] = [
    (b"DSN", Field::Dsn),
    (b"HLQ", Field::Hlq),
    (b"LLQ", Field::Llq),
    (b"JOB", Field::Text(TextField::Job)),
    (b"PGM", Field::Text(TextField::Pgm)),
];

const OF_FOUR: [(&[u8], Field); 4] = [
    (b"USER", Field::Text(TextField::User)),
    (b"UNIT", Field::Text(TextField::Device)),
    (b"SIZE", Field::Size),
    (b"NVOL", Field::Number(NumberField::Nvol)),
];

const OF_FIVE: [(&[u8], Field); 6] = [
    (b"NQUAL", Field::Number(NumberField::Nqual)),
    (b"GROUP", Field::Text(TextField::Group)),
    (b"DSORG", Field::Text(TextField::Dsorg)),
    (b"EXPDT", Field::Text(TextField::Expdt)),
    (b"RETPD", Field::Number(NumberField::Retpd)),
    (b"XMODE", Field::Xmode),
];

const OF_SIX: [(&[u8], Field); 5] = [
    (b"APPLIC", Field::Text(TextField::Applic)),
    (b"RECORG", Field::Text(TextField::Recorg)),
    (b"DSTYPE", Field::Dstype),
    (b"ANYVOL", Field::AnyVolume),
    (b"ALLVOL", Field::AllVolumes),
];

const OF_SEVEN: [(&[u8], Field); 8] = [
    (b"STORGRP", Field::Groups),
    (b"DSNTYPE", Field::Text(TextField::Dsntype)),
    (b"DSOWNER", Field::Text(TextField::Dsowner)),
    (b"BLKSIZE", Field::Number(NumberField::Blksize)),
    (b"FILENUM", Field::Number(NumberField::Zero)),
    (b"MAXSIZE", Field::MaxSize),
    (b"SYSNAME", Field::Text(TextField::Sysname)),
    (b"SYSPLEX", Field::Text(TextField::Sysplex)),
];

const OF_EIGHT: [(&[u8], Field); 6] = [
    (b"DATACLAS", Field::Text(TextField::DataClas)),
    (b"STORCLAS", Field::Text(TextField::StorClas)),
    (b"MGMTCLAS", Field::Text(TextField::MgmtClas)),
    (b"MEMNQUAL", Field::Number(NumberField::Zero)),
    (b"ACCT_JOB", Field::Text(TextField::AcctJob)),
    (b"ACSENVIR", Field::Acsenvir),
];

const OF_NINE: [(&[u8], Field); 1] = [(b"ACCT_STEP", Field::Text(TextField::AcctStep))];

const OF_TWELVE: [(&[u8], Field); 3] = [
    (b"DEF_DATACLAS", Field::Text(TextField::DefDataClas)),
    (b"DEF_STORCLAS", Field::Text(TextField::DefStorClas)),
    (b"DEF_MGMTCLAS", Field::Text(TextField::DefMgmtClas)),
];

impl Field {
    /// What the variable of that name reads.
    pub fn named(name: &Ident) -> Self
        ensures { result ≡ field_of name.now }
    {
        let bytes = name.bytes();
        match look_up(with_length(bytes.len()), bytes) {
            Some(field) => field,
            None => Field::Text(TextField::Null),
        }
    }
}

// The rows whose names have so many bytes.
fn with_length(count: usize) -> &'static [(&'static [u8], Field)]
    ensures { map (λ row. (row.0.now, row.1)) result.now ≡
        filter (λ (row : List ℕ × FieldOf). length row.0 == count) fields }
{
    match count {
        2 => &OF_TWO,
        3 => &OF_THREE,
        4 => &OF_FOUR,
        5 => &OF_FIVE,
        6 => &OF_SIX,
        7 => &OF_SEVEN,
        8 => &OF_EIGHT,
        9 => &OF_NINE,
        12 => &OF_TWELVE,
        _ => &[],
    }
}

fn look_up(mut rows: &[(&[u8], Field)], name: &[u8]) -> Option<Field>
    ensures { result ≡ look_up (map (λ row. (row.0.now, row.1)) rows.entry.now) name.now }
{
    while let [row, rest @ ..] = rows {
        if name == row.0 {
            return Some(row.1);
        }
        rows = rest;
    }
    None
}
