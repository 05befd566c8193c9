//! Data sets, some of them at a time.
ghost use Rattle.std.specs.Prelude.{◌≡◌, IfOk, map};
ghost use Rattle.std.specs.Option.{option_copied};
ghost use Rattle.desk_law.specs.State.{DeskState};
ghost use Rattle.desk_pages.specs.Listing.{IsListing, fits};

use crate::shown_desk::ShownDesk;
use dsn_mask::{Dsn, Mask, Short};
use sms_construct::DataSet;
use std::alloc::{AllocError, Global};

/// So many data sets, or extents, stand on a page.
pub const MOST_SHOWN: usize = 200;

// So many data sets are looked at for a page.
const MOST_LOOKED: usize = 20_000;

/// Data sets of a page, and the name behind which the next page begins, where one follows.
#[derive(Drop)]
pub struct Listing<'a> {
    pub sets: Vec<&'a DataSet>,
    pub after: Option<Dsn>,
}

/// The data sets behind a name that fit the mask, as many as a page shows.
pub fn list_sets<'a, D: ShownDesk>(
    alloc: Global,
    desk: &'a D,
    mask: &Option<Mask>,
    from: Option<Dsn>,
) -> Result<Listing<'a>, AllocError>
    ensures { IfOk result (λ listing. (s : DeskState) → D.stands desk.now s →
        IsListing s.sets mask.now from (map (λ set. set.now) listing.sets.items) listing.after) }
{
    let mut at = from;
    let mut sets = Vec::new(alloc);
    let mut looked = 0;
    while looked < MOST_LOOKED {
        if sets.len() == MOST_SHOWN {
            return Ok(Listing { sets, after: at });
        }
        let Some(set) = desk.set_after(at.as_ref()) else {
            return Ok(Listing { sets, after: None });
        };
        looked += 1;
        at = Some(set.dsn);
        if fits(mask, &set.dsn) {
            sets.push(set)?;
        }
    }
    Ok(Listing { sets, after: at })
}

// Whether the name fits the mask; each fits none.
fn fits(mask: &Option<Mask>, dsn: &Dsn) -> bool
    ensures { result ≡ fits mask.now dsn.now }
{
    let Some(mask) = mask else {
        return true;
    };
    match Short::new(dsn.bytes()) {
        Some(value) => mask.matches(&value),
        None => false,
    }
}
