//! What a run is given: words `NAME=value`, each with what one variable holds, one volume, one field of an
//! accounting or one group of the list. `VOLUMES=n` stands for n times the volume V1. Without a name the data
//! set is A.B.
use acs_tree::{Account, Input, Values, Volumes};
use desk_common::{MAX_FIELDS, MAX_GROUPS_SET, MAX_VOLUMES};
use dsn_mask::{Dsn, Name, Names, Short, Volser};

/// The read-only variables with what is given of them.
pub fn input_of(given: &str) -> Option<Input> {
    let mut input = Input::new(Dsn::parse(b"A.B").ok()?);
    for word in given.split_whitespace() {
        let (name, value) = word.split_once('=')?;
        give(name, value, &mut input);
    }
    Some(input)
}

fn give(name: &str, value: &str, input: &mut Input) {
    match name {
        "DSN" => give_dsn(value, input),
        "SIZE" => input.amounts.size = number_of(value),
        "MAXSIZE" => input.amounts.maxsize = number_of(value),
        "RETPD" => input.amounts.retpd = small_of(value),
        "BLKSIZE" => input.amounts.blksize = small_of(value),
        "UNIT" => input.attributes.unit = short_of(value),
        "ACCT_JOB" => push_field(value, &mut input.accounting.acct_job),
        "VOLUME" => push_volume(value, &mut input.volumes),
        "VOLUMES" => push_volumes(small_of(value), &mut input.volumes),
        _ => (),
    }
}

fn give_dsn(value: &str, input: &mut Input) {
    if let Ok(dsn) = Dsn::parse(value.as_bytes()) {
        input.dsn = dsn;
    }
}

/// The read-write variables with what is given of them.
pub fn values_of(given: &str) -> Values {
    let mut values = Values::new();
    for word in given.split_whitespace() {
        if let Some((name, value)) = word.split_once('=') {
            hold(name, value, &mut values);
        }
    }
    values
}

fn hold(name: &str, value: &str, values: &mut Values) {
    match name {
        "DATACLAS" => values.dataclas = short_of(value),
        "STORCLAS" => values.storclas = short_of(value),
        "MGMTCLAS" => values.mgmtclas = short_of(value),
        "STORGRP" => push_group(value, &mut values.groups),
        _ => (),
    }
}

fn number_of(text: &str) -> u64 {
    text.parse::<u64>().unwrap_or(0)
}

fn small_of(text: &str) -> u32 {
    text.parse::<u32>().unwrap_or(0)
}

fn short_of(text: &str) -> Short {
    Short::new(text.as_bytes()).unwrap_or(Short::null())
}

fn push_volume(text: &str, volumes: &mut Volumes) {
    if let Some(volser) = Volser::new(text.as_bytes()) {
        if volumes.as_slice().len() < MAX_VOLUMES {
            volumes.push(volser);
        }
    }
}

fn push_volumes(count: u32, volumes: &mut Volumes) {
    for _ in 0..count {
        push_volume("V1", volumes);
    }
}

fn push_field(text: &str, account: &mut Account) {
    if account.as_slice().len() < MAX_FIELDS {
        account.push(short_of(text));
    }
}

fn push_group(text: &str, groups: &mut Names) {
    if let Some(name) = Name::new(text.as_bytes()) {
        if groups.len() < MAX_GROUPS_SET && !groups.contains(&name) {
            groups.push(name);
        }
    }
}
