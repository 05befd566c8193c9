//! Pages of data sets.
ghost use Rattle.std.specs.Prelude.{◌≡◌, ◌++◌, IfOk, OnOk, false, map};
ghost use Rattle.std.specs.Option.{option_copied};
ghost use Rattle.serde_json.specs.Written.{compact_text, items_text};
ghost use Rattle.page_text.specs.PageBodies.{eattr_text, extent_body, extent_values, name_if, set_body, set_values};
ghost use Rattle.page_text.specs.PageBodies.{sets_body, unit_text};
ghost use Rattle.page_text.specs.Inner.Pieces.{extent_piece, set_days, set_extents, set_front, set_group, set_names};
ghost use Rattle.page_text.specs.Inner.Pieces.{set_rest, set_space, set_use, sets_text};

use crate::pieces::{push_count, push_count_if, push_name, push_text};
use desk_common::Items;
use dsn_mask::Dsn;
use json_text::push_quoted;
use sms_construct::{DataSet, Eattr, Extent, Unit};
use std::alloc::{AllocError, Global};

/// The page of a data set (docs/manual/smsd.md, "What pages show").
pub fn set_body(alloc: Global, set: &DataSet) -> Result<Items<u8>, AllocError>
    ensures { IfOk result (λ body. body ≡ set_body set.now) }
{
    let mut text = Vec::new(alloc);
    push_set(&mut text, set)?;
    Ok(Items::from_vec(text))
}

/// A page of data sets; the next one begins behind `after`, where there is one (docs/manual/smsd.md, "What pages
/// show").
pub fn sets_body(
    alloc: Global,
    sets: &[&DataSet],
    after: Option<&Dsn>,
) -> Result<Items<u8>, AllocError>
    ensures { IfOk result (λ body. body ≡ sets_body (map (λ set. set.now) sets.now) (option_copied after.entry)) }
{
    let mut text = Vec::new(alloc);
    push_page(&mut text, sets, after)?;
    Ok(Items::from_vec(text))
}

fn push_page(text: &mut Vec<u8>, sets: &[&DataSet], after: Option<&Dsn>) -> Result<(), AllocError>
    ensures { OnOk result (text.new.items
        ≡ text.old.items ++ sets_text (map (λ set. set.now) sets.now) (option_copied after.entry)) }
{
    text.extend_from_slice(b"{\"sets\":[")?;
    push_sets(text, sets)?;
    text.extend_from_slice(b",\"after\":")?;
    push_dsn_if(text, after)?;
    text.push(b'}')?;
    Ok(())
}

// Puts data sets behind a text, with commas between them, and the closing bracket.
fn push_sets(text: &mut Vec<u8>, sets: &[&DataSet]) -> Result<(), AllocError>
    ensures { OnOk result (text.new.items
        ≡ text.old.items ++ items_text false (set_values (map (λ set. set.now) sets.entry.now))) }
{
    let mut later = false;
    let mut rest = sets;
    while let [set, others @ ..] = rest {
        if later {
            text.push(b',')?;
        }
        push_set(text, *set)?;
        later = true;
        rest = others;
    }
    text.push(b']')?;
    Ok(())
}

// Puts a name, or null for none, behind a text.
fn push_dsn_if(text: &mut Vec<u8>, dsn: Option<&Dsn>) -> Result<(), AllocError>
    ensures { OnOk result (text.new.items
        ≡ text.old.items ++ compact_text (name_if (option_copied dsn.entry))) }
{
    match dsn {
        Some(dsn) => push_quoted(text, dsn.bytes()),
        None => text.extend_from_slice(b"null"),
    }
}

// Puts a data set behind a text.
fn push_set(text: &mut Vec<u8>, set: &DataSet) -> Result<(), AllocError>
    ensures { OnOk result (text.new.items ≡ text.old.items ++ set_body set.now) }
{
    push_front(text, set)?;
    push_rest(text, set)?;
    Ok(())
}

// Puts what stands before its space behind a text.
fn push_front(text: &mut Vec<u8>, set: &DataSet) -> Result<(), AllocError>
    ensures { OnOk result (text.new.items ≡ text.old.items ++ set_front set.now) }
{
    push_names(text, set)?;
    push_group(text, set)?;
    push_days(text, set)?;
    Ok(())
}

// Puts its space behind a text.
fn push_rest(text: &mut Vec<u8>, set: &DataSet) -> Result<(), AllocError>
    ensures { OnOk result (text.new.items ≡ text.old.items ++ set_rest set.now) }
{
    push_space(text, set)?;
    push_use(text, set)?;
    push_set_extents(text, set)?;
    Ok(())
}

fn push_names(text: &mut Vec<u8>, set: &DataSet) -> Result<(), AllocError>
    ensures { OnOk result (text.new.items ≡ text.old.items ++ set_names set.now) }
{
    push_text(text, b"{\"dsn\":", set.dsn.bytes())?;
    push_name(text, b",\"dataclas\":", &set.dataclas)?;
    push_text(text, b",\"storclas\":", set.storclas.bytes())?;
    Ok(())
}

fn push_group(text: &mut Vec<u8>, set: &DataSet) -> Result<(), AllocError>
    ensures { OnOk result (text.new.items ≡ text.old.items ++ set_group set.now) }
{
    push_name(text, b",\"mgmtclas\":", &set.mgmtclas)?;
    push_text(text, b",\"group\":", set.group.bytes())?;
    Ok(())
}

fn push_days(text: &mut Vec<u8>, set: &DataSet) -> Result<(), AllocError>
    ensures { OnOk result (text.new.items ≡ text.old.items ++ set_days set.now) }
{
    push_count(text, b",\"day\":", u64::from(set.day))?;
    text.extend_from_slice(b",\"retpd\":")?;
    push_count_if(text, wide(set.retpd))?;
    Ok(())
}

fn push_space(text: &mut Vec<u8>, set: &DataSet) -> Result<(), AllocError>
    ensures { OnOk result (text.new.items ≡ text.old.items ++ set_space set.now) }
{
    push_text(text, b",\"unit\":", unit_bytes(set.unit))?;
    push_count(text, b",\"secondary\":", u64::from(set.secondary))?;
    push_count(text, b",\"volumes\":", u64::from(set.volumes.get()))?;
    Ok(())
}

fn push_use(text: &mut Vec<u8>, set: &DataSet) -> Result<(), AllocError>
    ensures { OnOk result (text.new.items ≡ text.old.items ++ set_use set.now) }
{
    push_text(text, b",\"eattr\":", eattr_bytes(set.eattr))?;
    push_count(text, b",\"used\":", u64::from(set.used))?;
    Ok(())
}

// Puts its extents behind a text.
fn push_set_extents(text: &mut Vec<u8>, set: &DataSet) -> Result<(), AllocError>
    ensures { OnOk result (text.new.items ≡ text.old.items ++ set_extents set.now) }
{
    text.extend_from_slice(b",\"extents\":[")?;
    push_extents(text, set.extents.as_slice())?;
    text.push(b'}')?;
    Ok(())
}

// Puts extents behind a text, with commas between them, and the closing bracket.
fn push_extents(text: &mut Vec<u8>, extents: &[Extent]) -> Result<(), AllocError>
    ensures { OnOk result (text.new.items ≡ text.old.items ++ items_text false (extent_values extents.entry.now)) }
{
    let mut later = false;
    let mut rest = extents;
    while let [extent, others @ ..] = rest {
        if later {
            text.push(b',')?;
        }
        push_extent(text, extent)?;
        later = true;
        rest = others;
    }
    text.push(b']')?;
    Ok(())
}

// Puts an extent behind a text.
fn push_extent(text: &mut Vec<u8>, extent: &Extent) -> Result<(), AllocError>
    ensures { OnOk result (text.new.items ≡ text.old.items ++ extent_body extent.now) }
{
    push_place(text, extent)?;
    Ok(())
}

fn push_place(text: &mut Vec<u8>, extent: &Extent) -> Result<(), AllocError>
    ensures { OnOk result (text.new.items ≡ text.old.items ++ extent_piece extent.now) }
{
    push_text(text, b"{\"volser\":", extent.volser.bytes())?;
    push_count(text, b",\"start\":", u64::from(extent.start))?;
    push_count(text, b",\"tracks\":", u64::from(extent.length))?;
    text.push(b'}')?;
    Ok(())
}

fn wide(count: Option<u32>) -> Option<u64>
    ensures { result ≡ count }
{
    match count {
        Some(count) => Some(u64::from(count)),
        None => None,
    }
}

fn unit_bytes(unit: Unit) -> &'static [u8]
    ensures { result.now ≡ unit_text unit }
{
    match unit {
        Unit::Trk => b"TRK",
        Unit::Cyl => b"CYL",
    }
}

fn eattr_bytes(eattr: Eattr) -> &'static [u8]
    ensures { result.now ≡ eattr_text eattr }
{
    match eattr {
        Eattr::No => b"NO",
        Eattr::Opt => b"OPT",
    }
}
