//! Bounded lists, paths and spaces as records.
ghost use Rattle.std.specs.Prelude.{◌≡◌, ◌≤◌, ◌&&◌, length, nat_le};
ghost use Rattle.std.specs.List.{list_all};
ghost use Rattle.desk_common.specs.Limits.{most_account_fields, most_path_bytes, most_volume_count};
ghost use Rattle.sms_construct.specs.Path.{is_shown};

use crate::lists::write_list;
use crate::numbers::write_number;
use crate::record_err::RecordErr;
use crate::recorded::Recorded;
use crate::texts::{read_text, write_text};
use acs_tree::{Account, Volumes};
use desk_common::{Items, MAX_FIELDS, MAX_PATH, MAX_VOLUMES};
use dsn_mask::{Short, Volser};
use sms_construct::{Path, Space, Unit};
use std::alloc::{AllocError, Global};

// The accounting of these fields.
fn account_of(items: &[Short]) -> Account
    requires { length items.now ≤ most_account_fields }
    ensures { result ≡ items.now }
{
    let mut account = Account::new();
    for item in items {
        account.push(*item);
    }
    account
}

// The volumes of these serials.
fn volumes_of(items: &[Volser]) -> Volumes
    requires { length items.now ≤ most_volume_count }
    ensures { result ≡ items.now }
{
    let mut volumes = Volumes::new();
    for item in items {
        volumes.push(*item);
    }
    volumes
}

// Whether the bytes are those of a path.
fn is_path(bytes: &[u8]) -> bool
    ensures { result ≡ (nat_le (length bytes.now) most_path_bytes && list_all is_shown bytes.now) }
{
    bytes.len() <= MAX_PATH && are_shown(bytes)
}

// Whether a path shows each of the bytes as it is.
fn are_shown(bytes: &[u8]) -> bool
    ensures { result ≡ list_all is_shown bytes.now }
{
    bytes.iter().all(|byte| is_shown(*byte))
}

// Whether a path shows the byte as it is.
fn is_shown(byte: u8) -> bool
    ensures { result ≡ is_shown byte }
{
    byte >= 33 && byte <= 126
}

impl Recorded for Account {
    ghost use Rattle.sms_records.specs.Parts.{account_form};
    ghost use Rattle.sms_records.specs.Inner.PartLaws.{account_exact};

    ghost form = { account_form };

    ghost exact = { account_exact };

    #[tactic(auto, using(crate::specs::Inner::PartLaws::account_readable, crate::specs::Inner::FormLaws::on_ok))]
    fn write_to(&self, out: &mut Vec<u8>) -> Result<(), AllocError> {
        write_list(self.as_slice(), out)
    }

    #[tactic(auto, unfolding(crate::specs::Form::seen_at))]
    fn read_from(alloc: Global, bytes: &[u8]) -> Result<(Self, &[u8]), RecordErr> {
        match Items::<Short>::read_from(alloc, bytes) {
            Ok((items, rest)) if items.len() <= MAX_FIELDS => Ok((
                account_of(items.as_slice()),
                rest,
            )),
            Ok(_) => Err(RecordErr::Bad),
            Err(err) => Err(err),
        }
    }
}

impl Recorded for Volumes {
    ghost use Rattle.sms_records.specs.Parts.{volumes_form};
    ghost use Rattle.sms_records.specs.Inner.PartLaws.{volumes_exact};

    ghost form = { volumes_form };

    ghost exact = { volumes_exact };

    #[tactic(auto, using(crate::specs::Inner::PartLaws::volumes_readable, crate::specs::Inner::FormLaws::on_ok))]
    fn write_to(&self, out: &mut Vec<u8>) -> Result<(), AllocError> {
        let volsers = self.as_slice();
        write_number(volsers.len() as u64, out)?;
        write_list(volsers, out)
    }

    #[tactic(auto, unfolding(crate::specs::Form::seen_at))]
    fn read_from(alloc: Global, bytes: &[u8]) -> Result<(Self, &[u8]), RecordErr> {
        match <(u64, Items<Volser>)>::read_from(alloc, bytes) {
            Ok(((count, items), rest))
                if count == items.len() as u64 && items.len() <= MAX_VOLUMES => {
                Ok((volumes_of(items.as_slice()), rest))
            }
            Ok(_) => Err(RecordErr::Bad),
            Err(err) => Err(err),
        }
    }
}

impl Recorded for Path {
    ghost use Rattle.sms_records.specs.Parts.{path_form};
    ghost use Rattle.sms_records.specs.Inner.PartLaws.{path_exact};

    ghost form = { path_form };

    ghost exact = { path_exact };

    #[tactic(auto, using(crate::specs::Inner::PartLaws::path_readable, crate::specs::Inner::FormLaws::on_ok))]
    fn write_to(&self, out: &mut Vec<u8>) -> Result<(), AllocError> {
        write_text(self.bytes(), out)
    }

    #[tactic(auto, unfolding(crate::specs::Form::seen_at))]
    fn read_from(_alloc: Global, bytes: &[u8]) -> Result<(Self, &[u8]), RecordErr> {
        let (found, rest) = read_text(bytes)?;
        if !is_path(found) {
            return Err(RecordErr::Bad);
        }
        Ok((Path::new(found), rest))
    }
}

impl Recorded for Space {
    ghost use Rattle.sms_records.specs.Parts.{space_form};
    ghost use Rattle.sms_records.specs.Inner.PartLaws.{space_exact};

    ghost form = { space_form };

    ghost exact = { space_exact };

    fn write_to(&self, out: &mut Vec<u8>) -> Result<(), AllocError> {
        (self.unit(), (self.primary(), self.secondary())).write_to(out)
    }

    #[tactic(auto, unfolding(crate::specs::Form::seen_at))]
    fn read_from(alloc: Global, bytes: &[u8]) -> Result<(Self, &[u8]), RecordErr> {
        match <(Unit, (u32, u32))>::read_from(alloc, bytes) {
            Ok(((unit, (primary, secondary)), rest)) => match Space::new(unit, primary, secondary) {
                Some(space) => Ok((space, rest)),
                None => Err(RecordErr::Bad),
            },
            Err(err) => Err(err),
        }
    }
}
