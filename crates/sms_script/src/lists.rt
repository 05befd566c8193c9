//! Operands that are lists.
ghost use Rattle.std.specs.Prelude.{◌≡◌, ◌&&◌, ◌∷◌, ◌++◌, [], bytes_eq, length, nat_lt, not, if◌then◌else◌};
ghost use Rattle.std.specs.List.{list_any};
ghost use Rattle.desk_common.specs.Limits.{most_account_fields, most_value_bytes, most_volume_count};
ghost use Rattle.dsn_mask.specs.Name.{is_volser};
ghost use Rattle.sms_script.specs.Values.{account_of, is_plain, volumes_of};

use crate::parts::first_piece;
use crate::value::read_plain;
use acs_tree::{Account, Volumes};
use desk_common::{MAX_FIELDS, MAX_VALUE};
use dsn_mask::Volser;
use sms_construct::in_parentheses;

/// One volume serial, or up to 59 in parentheses, none twice.
pub fn read_volumes(value: &[u8]) -> Option<Volumes>
    ensures { result ≡ volumes_of value.now }
{
    let mut volumes = Volumes::new();
    let Some(inner) = in_parentheses(value) else {
        volumes.push(Volser::new(value)?);
        return Some(volumes);
    };
    let mut rest = Some(inner);
    while let Some(text) = rest {
        let (piece, behind) = first_piece(text);
        if !push_volume(&mut volumes, piece) {
            return None;
        }
        rest = behind;
    }
    Some(volumes)
}

// Puts a volume serial behind the others where there is room, and says whether it is one that isn't among them.
fn push_volume(volumes: &mut Volumes, piece: &[u8]) -> bool
    ensures said { result ≡ (nat_lt (length volumes.old) most_volume_count &&
        (is_volser piece.now && not (list_any (bytes_eq piece.now) volumes.old))) }
    ensures volumes { volumes.new ≡ if result then volumes.old ++ piece.now ∷ [] else volumes.old }
{
    if volumes.is_full() {
        return false;
    }
    match Volser::new(piece) {
        Some(volser) if !has_volume(volumes.as_slice(), &volser) => {
            volumes.push(volser);
            true
        }
        _ => false,
    }
}

fn has_volume(volumes: &[Volser], volser: &Volser) -> bool
    ensures { result ≡ list_any (bytes_eq volser.now) volumes.now }
{
    volumes.iter().any(|other| volser == other)
}

/// One text of 1 to 44 bytes, or up to 8 in parentheses.
pub fn read_account(value: &[u8]) -> Option<Account>
    ensures { result ≡ account_of value.now }
{
    let mut account = Account::new();
    let Some(inner) = in_parentheses(value) else {
        account.push(read_plain(MAX_VALUE, value)?);
        return Some(account);
    };
    let mut rest = Some(inner);
    while let Some(text) = rest {
        let (piece, behind) = first_piece(text);
        if !push_field(&mut account, piece) {
            return None;
        }
        rest = behind;
    }
    Some(account)
}

// Puts a text behind the others where there is room, and says whether it is one.
fn push_field(account: &mut Account, piece: &[u8]) -> bool
    ensures said { result ≡
        (nat_lt (length account.old) most_account_fields && is_plain most_value_bytes piece.now) }
    ensures account { account.new ≡ if result then account.old ++ piece.now ∷ [] else account.old }
{
    if account.as_slice().len() == MAX_FIELDS {
        return false;
    }
    match read_plain(MAX_VALUE, piece) {
        Some(field) => {
            account.push(field);
            true
        }
        None => false,
    }
}
