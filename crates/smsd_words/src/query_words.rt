// What is asked of the lists, in words.
ghost use Rattle.std.specs.Prelude.{◌≡◌};
ghost use Rattle.clap.specs.Words.{found_of, rows_of};
ghost use Rattle.smsd_words.specs.Asking.{format_in, group_in, is_all, listing_in, listing_named, mask_in, query_in};
ghost use Rattle.smsd_words.specs.Asking.{query_of, query_with, selection_in, suits, volume_in};

use crate::values::value_of;
use clap::ArgMatches;
use dsn_mask::{Mask, Name, Volser};
use store_report::{Format, Listing, Query, Selection};

/// What the words ask to be listed.
pub fn query_in(matches: &ArgMatches<'_>) -> Option<Query>
    ensures { result ≡ query_in (rows_of (found_of matches.now)) }
{
    let listing = listing_in(matches)?;
    let format = format_in(matches)?;
    query_of(matches, listing, format)
}

// What the words ask of this listing in this form.
fn query_of(matches: &ArgMatches<'_>, listing: Listing, format: Format) -> Option<Query>
    ensures { result ≡ query_of listing format (rows_of (found_of matches.now)) }
{
    match selection_in(matches) {
        Some(selection) => query_with(listing, selection, format),
        None => None,
    }
}

// The query, where the listing has what is asked of its rows.
fn query_with(listing: Listing, selection: Selection, format: Format) -> Option<Query>
    ensures { result ≡ query_with listing selection format }
{
    if !suits(listing, &selection) {
        return None;
    }
    Some(Query {
        listing,
        selection,
        format,
    })
}

// Whether each row of the listing has what is asked of it.
fn suits(listing: Listing, selection: &Selection) -> bool
    ensures { result ≡ suits listing selection.now }
{
    match listing {
        Listing::Groups => selection.mask.is_none() && selection.volume.is_none(),
        Listing::Volumes => selection.mask.is_none(),
        Listing::Classes => is_all(selection),
        Listing::Sets | Listing::Extents => true,
    }
}

// Whether nothing is asked of the rows.
fn is_all(selection: &Selection) -> bool
    ensures { result ≡ is_all selection.now }
{
    selection.mask.is_none() && selection.group.is_none() && selection.volume.is_none()
}

// The listing that the words name.
fn listing_in(matches: &ArgMatches<'_>) -> Option<Listing>
    ensures { result ≡ listing_in (rows_of (found_of matches.now)) }
{
    match value_of(matches, "what") {
        Some(word) => listing_named(word),
        None => None,
    }
}

fn listing_named(word: &str) -> Option<Listing>
    ensures { result ≡ listing_named word.now }
{
    if word == "groups" {
        return Some(Listing::Groups);
    }
    if word == "volumes" {
        return Some(Listing::Volumes);
    }
    if word == "classes" {
        return Some(Listing::Classes);
    }
    if word == "sets" {
        return Some(Listing::Sets);
    }
    if word == "extents" {
        return Some(Listing::Extents);
    }
    None
}

// The form that the words name.
fn format_in(matches: &ArgMatches<'_>) -> Option<Format>
    ensures { result ≡ format_in (rows_of (found_of matches.now)) }
{
    let Some(word) = value_of(matches, "format") else {
        return Some(Format::Csv);
    };
    if word == "csv" {
        return Some(Format::Csv);
    }
    if word == "json" {
        return Some(Format::Json);
    }
    if word == "text" {
        return Some(Format::Text);
    }
    None
}

// Which rows the words ask for.
fn selection_in(matches: &ArgMatches<'_>) -> Option<Selection>
    ensures { result ≡ selection_in (rows_of (found_of matches.now)) }
{
    let mask = mask_in(matches)?;
    let group = group_in(matches)?;
    let volume = volume_in(matches)?;
    Some(Selection {
        mask,
        group,
        volume,
    })
}

// The mask that the words name, if they name one.
fn mask_in(matches: &ArgMatches<'_>) -> Option<Option<Mask>>
    ensures { result ≡ mask_in (rows_of (found_of matches.now)) }
{
    let Some(word) = value_of(matches, "mask") else {
        return Some(None);
    };
    match Mask::parse(word.as_bytes()) {
        Ok(mask) => Some(Some(mask)),
        Err(_) => None,
    }
}

// The storage group that the words name, if they name one.
fn group_in(matches: &ArgMatches<'_>) -> Option<Option<Name>>
    ensures { result ≡ group_in (rows_of (found_of matches.now)) }
{
    let Some(word) = value_of(matches, "group") else {
        return Some(None);
    };
    match Name::new(word.as_bytes()) {
        Some(name) => Some(Some(name)),
        None => None,
    }
}

// The volume that the words name, if they name one.
fn volume_in(matches: &ArgMatches<'_>) -> Option<Option<Volser>>
    ensures { result ≡ volume_in (rows_of (found_of matches.now)) }
{
    let Some(word) = value_of(matches, "volume") else {
        return Some(None);
    };
    match Volser::new(word.as_bytes()) {
        Some(volser) => Some(Some(volser)),
        None => None,
    }
}
