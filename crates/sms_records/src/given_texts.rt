//! The texts of what routines see, as records.
ghost use Rattle.std.specs.Prelude.{◌≡◌, ◌++◌, OnOk, unwrap_or};
ghost use Rattle.acs_tree.specs.Inputs.{no_texts};
ghost use Rattle.sms_records.specs.Form.{IsReadable};
ghost use Rattle.sms_records.specs.Inputs.{asking_of, setting_of, wanted_of};
ghost use Rattle.sms_records.specs.Inner.Givens.{fields_of_texts, texts_form, texts_in, texts_of};
ghost use Rattle.sms_records.specs.Reading.{Gives};

use crate::record_err::RecordErr;
use crate::recorded::Recorded;
use acs_tree::{Attributes, Defaults, Environment, GivenTexts, Input, Origin};
use desk_common::Boxed;
use dsn_mask::Short;
use std::alloc::{AllocError, Global};

// The job, the user, the group, the program and the DD name.
type Asking = (Short, (Short, (Short, (Short, Short))));

// The unit and the organizations of the data set and its records, and its type of name.
type Wanted = (Short, (Short, (Short, Short)));

// The application, the expiration date, the type, the environment, the mode and the owner.
type Setting = (Short, (Short, (Short, (Short, (Short, Short)))));

// The default classes.
type Classes = (Short, (Short, Short));

// The texts, the system and its sysplex behind the others.
type Texts = (Asking, (Wanted, (Setting, (Classes, (Short, Short)))));

// The bytes of the texts where a request gives none: the type, the environment and the mode, and else empty ones.
#[rattlefmt::skip]
const PLAIN: &[u8] = b"\
    \0\0\0\0\0\0\0\0\0\0\0\0\0\0\0\0\0\0\0\0\0\0\0\0\0\0\0\0\0\0\0\0\0\0\0\0\0\0\0\0\
    \0\0\0\0\0\0\0\0\0\0\0\0\0\0\0\0\0\0\0\0\0\0\0\0\0\0\0\0\0\0\0\0\
    \0\0\0\0\0\0\0\0\0\0\0\0\0\0\0\0\
    \0\0\0\0\0\0\0\x04PERM\0\0\0\0\0\0\0\x05ALLOC\0\0\0\0\0\0\0\x05BATCH\0\0\0\0\0\0\0\0\
    \0\0\0\0\0\0\0\0\0\0\0\0\0\0\0\0\0\0\0\0\0\0\0\0\
    \0\0\0\0\0\0\0\0\0\0\0\0\0\0\0\0";

/// The texts at the front of the bytes, in memory of their own if one is given.
pub fn read_texts(
    alloc: Global,
    bytes: &[u8],
) -> Result<(Option<Boxed<GivenTexts>>, &[u8]), RecordErr>
    ensures { Gives (λ x. (fields_of_texts (unwrap_or x.0 no_texts), x.1.now)) result (texts_form.read bytes.now) }
{
    match bytes.strip_prefix(PLAIN) {
        Some(rest) => Ok((None, rest)),
        None => read_given_texts(alloc, bytes),
    }
}

// The texts at the front of the bytes, in memory of their own.
fn read_given_texts(
    alloc: Global,
    bytes: &[u8],
) -> Result<(Option<Boxed<GivenTexts>>, &[u8]), RecordErr>
    ensures { Gives (λ x. (fields_of_texts (unwrap_or x.0 no_texts), x.1.now)) result (texts_form.read bytes.now) }
{
    match <Texts>::read_from(alloc, bytes) {
        Ok((fields, rest)) => Ok((Some(Boxed::new(alloc, texts_of(fields))?), rest)),
        Err(err) => Err(err),
    }
}

// The texts of these fields.
fn texts_of(fields: Texts) -> GivenTexts
    ensures { result ≡ texts_of fields }
{
    let (asking, (wanted, (setting, (classes, (sysname, sysplex))))) = fields;
    let (applic, (expdt, (dstype, (acsenvir, (xmode, dsowner))))) = setting;
    let (dataclas, (storclas, mgmtclas)) = classes;
    GivenTexts {
        origin: origin_of(asking, applic),
        attributes: attributes_of(wanted, expdt, dstype, dsowner),
        environment: Environment {
            acsenvir,
            xmode,
            sysname,
            sysplex,
        },
        defaults: Defaults {
            dataclas,
            storclas,
            mgmtclas,
        },
    }
}

// Who asks, of these fields and the application.
fn origin_of(asking: Asking, application: Short) -> Origin
    ensures { result ≡ record {
      job = asking.0;
      user = asking.1.0;
      group = asking.1.1.0;
      pgm = asking.1.1.1.0;
      dd = asking.1.1.1.1;
      applic = application;
    } }
{
    let (job, (user, (group, (pgm, dd)))) = asking;
    Origin {
        job,
        user,
        group,
        pgm,
        dd,
        applic: application,
    }
}

// What the data set is to be, of these fields, its expiration date, its type and its owner.
fn attributes_of(wanted: Wanted, expiration: Short, set_type: Short, owner: Short) -> Attributes
    ensures { result ≡ record {
      unit = wanted.0;
      dsorg = wanted.1.0;
      recorg = wanted.1.1.0;
      dsntype = wanted.1.1.1;
      dstype = set_type;
      dsowner = owner;
      expdt = expiration;
    } }
{
    let (unit, (dsorg, (recorg, dsntype))) = wanted;
    Attributes {
        unit,
        dsorg,
        recorg,
        dsntype,
        dstype: set_type,
        dsowner: owner,
        expdt: expiration,
    }
}

/// The texts of what routines see.
pub fn write_texts(input: &Input, out: &mut Vec<u8>) -> Result<(), AllocError>
    ensures written { OnOk result (out.new.items ≡ out.old.items ++ texts_form.write
        (fields_of_texts (texts_in input.now))) }
    ensures readable { OnOk result (IsReadable texts_form (fields_of_texts (texts_in input.now))) }
{
    let origin = &input.origin;
    let attributes = &input.attributes;
    let environment = &input.environment;
    let defaults = &input.defaults;
    asking_of(origin).write_to(out)?;
    wanted_of(attributes).write_to(out)?;
    setting_of(origin, attributes, environment).write_to(out)?;
    (defaults.dataclas, (defaults.storclas, defaults.mgmtclas)).write_to(out)?;
    (environment.sysname, environment.sysplex).write_to(out)
}

// The fields of who asks, without the application.
fn asking_of(origin: &Origin) -> Asking
    ensures { result ≡ asking_of origin.now }
{
    (
        origin.job,
        (origin.user, (origin.group, (origin.pgm, origin.dd))),
    )
}

// The fields of what the data set is to be, without its expiration date, its type and its owner.
fn wanted_of(attributes: &Attributes) -> Wanted
    ensures { result ≡ wanted_of attributes.now }
{
    (
        attributes.unit,
        (attributes.dsorg, (attributes.recorg, attributes.dsntype)),
    )
}

// The fields of the setting.
fn setting_of(origin: &Origin, attributes: &Attributes, environment: &Environment) -> Setting
    ensures { result ≡ setting_of origin.now attributes.now environment.now }
{
    let modes = (
        environment.acsenvir,
        (environment.xmode, attributes.dsowner),
    );
    (
        origin.applic,
        (attributes.expdt, (attributes.dstype, modes)),
    )
}
