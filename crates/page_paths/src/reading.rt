//! Reading the path of a page.
ghost use Rattle.std.specs.Prelude.{◌≡◌, IfOk, Some, option_map};
ghost use Rattle.dsn_mask.specs.DataSetName.{dsn_of};
ghost use Rattle.dsn_mask.specs.MaskText.{mask_of};
ghost use Rattle.dsn_mask.specs.Name.{name_of, volser_of};
ghost use Rattle.http_head.specs.Segments.{segment};
ghost use Rattle.sms_construct.specs.Numbers.{small_number_of};
ghost use Rattle.page_paths.specs.Paths.{after_at, alone, behind_mask, behind_volume, or_bad, page_by, page_of_pool};
ghost use Rattle.page_paths.specs.Paths.{page_of_some, page_path_of, set_at, sets_at, track_at, under_mask, under_volume};
ghost use Rattle.page_paths.specs.Paths.{page_of_file, page_of_trial, trial_at, trial_of, under_job, volume_at};

use crate::page_path::PagePath;
use crate::trial::Trial;
use dsn_mask::{Dsn, Mask, Name, Volser};
use http_head::segment;
use sms_construct::read_number;
use std::alloc::{AllocError, Global};

/// What the path asks to be shown (docs/manual/smsd.md, "What pages show").
pub fn read_page_path(alloc: Global, path: &[u8]) -> Result<PagePath, AllocError>
    ensures { IfOk result (λ page. page ≡ page_path_of path.now) }
{
    match segment(alloc, 1, path)? {
        Some(word) => page_by(alloc, path, &word),
        None => Ok(PagePath::Missing),
    }
}

// The page by the first word of its path.
fn page_by(alloc: Global, path: &[u8], word: &[u8]) -> Result<PagePath, AllocError>
    ensures { IfOk result (λ page. page ≡ page_by path.now (Some word.now)) }
{
    if word == b"DESK".as_slice() {
        return alone(alloc, 2, path, PagePath::Desk);
    }
    if word == b"HEALTH".as_slice() {
        return alone(alloc, 2, path, PagePath::Health);
    }
    if word == b"ANSWERS".as_slice() {
        return alone(alloc, 2, path, PagePath::Answers);
    }
    if word == b"CHECK".as_slice() {
        return alone(alloc, 2, path, PagePath::Check);
    }
    page_of_pool(alloc, path, word)
}

// The page by the first word of its path, where it shows what is active, or data sets.
fn page_of_pool(alloc: Global, path: &[u8], word: &[u8]) -> Result<PagePath, AllocError>
    ensures { IfOk result (λ page. page ≡ page_of_pool path.now word.now) }
{
    if word == b"DECK".as_slice() {
        return alone(alloc, 2, path, PagePath::Deck);
    }
    if word == b"GROUPS".as_slice() {
        return alone(alloc, 2, path, PagePath::Groups);
    }
    if word == b"VOLUMES".as_slice() {
        return alone(alloc, 2, path, PagePath::Volumes);
    }
    page_of_some(alloc, path, word)
}

// The page by the first word of its path, where it shows some of the volumes or data sets.
fn page_of_some(alloc: Global, path: &[u8], word: &[u8]) -> Result<PagePath, AllocError>
    ensures { IfOk result (λ page. page ≡ page_of_some path.now word.now) }
{
    if word == b"VOLUME".as_slice() {
        return volume_at(alloc, path);
    }
    if word == b"SETS".as_slice() {
        return sets_at(alloc, path);
    }
    if word == b"SET".as_slice() {
        return set_at(alloc, path);
    }
    page_of_trial(alloc, path, word)
}

// The page by the first word of its path, where it shows what an ALLOC would come to.
fn page_of_trial(alloc: Global, path: &[u8], word: &[u8]) -> Result<PagePath, AllocError>
    ensures { IfOk result (λ page. page ≡ page_of_trial path.now word.now) }
{
    if word == b"CLASSIFY".as_slice() {
        return trial_at(alloc, path, Trial::Classes);
    }
    if word == b"EXPLAIN".as_slice() {
        return trial_at(alloc, path, Trial::Runs);
    }
    page_of_file(alloc, path, word)
}

// The page by the first word of its path, where it is a file of the desk's page.
fn page_of_file(alloc: Global, path: &[u8], word: &[u8]) -> Result<PagePath, AllocError>
    ensures { IfOk result (λ page. page ≡ page_of_file path.now word.now) }
{
    if word == b"".as_slice() {
        return alone(alloc, 2, path, PagePath::Home);
    }
    if word == b"DESK.CSS".as_slice() {
        return alone(alloc, 2, path, PagePath::Style);
    }
    if word == b"DESK.JS".as_slice() {
        return alone(alloc, 2, path, PagePath::Script);
    }
    Ok(PagePath::Missing)
}

// The page, where the path has no segment of this number.
fn alone(alloc: Global, number: usize, path: &[u8], page: PagePath) -> Result<PagePath, AllocError>
    ensures { IfOk result (λ found. found ≡ alone number path.now page) }
{
    match segment(alloc, number, path)? {
        Some(_) => Ok(PagePath::Missing),
        None => Ok(page),
    }
}

fn trial_at(alloc: Global, path: &[u8], shows: Trial) -> Result<PagePath, AllocError>
    ensures { IfOk result (λ page. page ≡ trial_at path.now shows (segment 2 path.now)) }
{
    match segment(alloc, 2, path)? {
        Some(text) => under_job(alloc, path, shows, &text),
        None => Ok(PagePath::Missing),
    }
}

fn under_job(alloc: Global, path: &[u8], shows: Trial, text: &[u8]) -> Result<PagePath, AllocError>
    ensures { IfOk result (λ page. page ≡ under_job path.now shows (name_of text.now)) }
{
    match Name::new(text) {
        Some(job) => trial_of(alloc, path, shows, job),
        None => Ok(PagePath::Bad),
    }
}

fn trial_of(alloc: Global, path: &[u8], shows: Trial, job: Name) -> Result<PagePath, AllocError>
    ensures { IfOk result (λ page. page ≡ trial_of path.now shows job (segment 3 path.now)) }
{
    match segment(alloc, 3, path)? {
        Some(text) => alone(alloc, 4, path, trial_named(shows, job, &text)),
        None => Ok(PagePath::Missing),
    }
}

fn trial_named(shows: Trial, job: Name, text: &[u8]) -> PagePath
    ensures { result ≡ or_bad (option_map (PagePath.Trial shows job) (dsn_of text.now)) }
{
    match Dsn::parse(text) {
        Ok(dsn) => PagePath::Trial { shows, job, dsn },
        Err(_) => PagePath::Bad,
    }
}

fn volume_at(alloc: Global, path: &[u8]) -> Result<PagePath, AllocError>
    ensures { IfOk result (λ page. page ≡ volume_at path.now (segment 2 path.now)) }
{
    match segment(alloc, 2, path)? {
        Some(text) => under_volume(alloc, path, &text),
        None => Ok(PagePath::Missing),
    }
}

fn under_volume(alloc: Global, path: &[u8], text: &[u8]) -> Result<PagePath, AllocError>
    ensures { IfOk result (λ page. page ≡ under_volume path.now (volser_of text.now)) }
{
    match Volser::new(text) {
        Some(volser) => behind_volume(alloc, path, volser),
        None => Ok(PagePath::Bad),
    }
}

fn behind_volume(alloc: Global, path: &[u8], volser: Volser) -> Result<PagePath, AllocError>
    ensures { IfOk result (λ page. page ≡ behind_volume path.now volser (segment 3 path.now)) }
{
    match segment(alloc, 3, path)? {
        Some(word) => {
            if word.as_slice() == b"FROM".as_slice() {
                return track_at(alloc, path, volser);
            }
            Ok(PagePath::Missing)
        }
        None => Ok(PagePath::Volume { volser, from: 0 }),
    }
}

fn track_at(alloc: Global, path: &[u8], volser: Volser) -> Result<PagePath, AllocError>
    ensures { IfOk result (λ page. page ≡ track_at path.now volser (segment 4 path.now)) }
{
    match segment(alloc, 4, path)? {
        Some(text) => alone(alloc, 5, path, volume_from(volser, &text)),
        None => Ok(PagePath::Missing),
    }
}

fn volume_from(volser: Volser, text: &[u8]) -> PagePath
    ensures { result ≡ or_bad (option_map (PagePath.Volume volser) (small_number_of text.now)) }
{
    match read_number(text) {
        Some(from) => PagePath::Volume { volser, from },
        None => PagePath::Bad,
    }
}

fn set_at(alloc: Global, path: &[u8]) -> Result<PagePath, AllocError>
    ensures { IfOk result (λ page. page ≡ set_at path.now (segment 2 path.now)) }
{
    match segment(alloc, 2, path)? {
        Some(text) => alone(alloc, 3, path, set_named(&text)),
        None => Ok(PagePath::Missing),
    }
}

fn set_named(text: &[u8]) -> PagePath
    ensures { result ≡ or_bad (option_map PagePath.Set (dsn_of text.now)) }
{
    match Dsn::parse(text) {
        Ok(dsn) => PagePath::Set(dsn),
        Err(_) => PagePath::Bad,
    }
}

fn sets_at(alloc: Global, path: &[u8]) -> Result<PagePath, AllocError>
    ensures { IfOk result (λ page. page ≡ sets_at path.now (segment 2 path.now)) }
{
    match segment(alloc, 2, path)? {
        Some(text) => under_mask(alloc, path, &text),
        None => Ok(PagePath::Sets {
            mask: None,
            after: None,
        }),
    }
}

fn under_mask(alloc: Global, path: &[u8], text: &[u8]) -> Result<PagePath, AllocError>
    ensures { IfOk result (λ page. page ≡ under_mask path.now (mask_of text.now)) }
{
    match Mask::parse(text) {
        Ok(mask) => behind_mask(alloc, path, mask),
        Err(_) => Ok(PagePath::Bad),
    }
}

fn behind_mask(alloc: Global, path: &[u8], mask: Mask) -> Result<PagePath, AllocError>
    ensures { IfOk result (λ page. page ≡ behind_mask path.now mask (segment 3 path.now)) }
{
    match segment(alloc, 3, path)? {
        Some(word) => {
            if word.as_slice() == b"AFTER".as_slice() {
                return after_at(alloc, path, mask);
            }
            Ok(PagePath::Missing)
        }
        None => Ok(PagePath::Sets {
            mask: Some(mask),
            after: None,
        }),
    }
}

fn after_at(alloc: Global, path: &[u8], mask: Mask) -> Result<PagePath, AllocError>
    ensures { IfOk result (λ page. page ≡ after_at path.now mask (segment 4 path.now)) }
{
    match segment(alloc, 4, path)? {
        Some(text) => alone(alloc, 5, path, sets_after(mask, &text)),
        None => Ok(PagePath::Missing),
    }
}

fn sets_after(mask: Mask, text: &[u8]) -> PagePath
    ensures { result
        ≡ or_bad (option_map (λ dsn. PagePath.Sets (Some mask) (Some dsn)) (dsn_of text.now)) }
{
    match Dsn::parse(text) {
        Ok(dsn) => PagePath::Sets {
            mask: Some(mask),
            after: Some(dsn),
        },
        Err(_) => PagePath::Bad,
    }
}
