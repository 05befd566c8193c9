//! The page at a path.
ghost use Rattle.std.specs.Prelude.{◌≡◌, IfOk, length};
ghost use Rattle.desk_law.specs.State.{DeskState, set_named};
ghost use Rattle.page_text.specs.PageBodies.{health_body};
ghost use Rattle.desk_pages.specs.DeskPages.{IsGotten, IsPage, IsPosted, IsSetsPage, answers_page, bad_page};
ghost use Rattle.desk_pages.specs.DeskPages.{deck_page, desk_page, missing_page, set_page};
ghost use Rattle.desk_pages.specs.Shown.{showing};

use crate::checking::check;
use crate::latest::newest;
use crate::listing::list_sets;
use crate::pool::{groups, volume, volumes};
use crate::said::{filed, refused, shown};
use crate::shown_desk::ShownDesk;
use crate::trials::trial;
use dsn_mask::{Dsn, Mask};
use http_flow::{Page, PageKind, PageStatus};
use page_files::{desk_markup, desk_script, desk_style};
use page_paths::{PagePath, read_page_path};
use page_text::{
    answers_body, deck_body, desk_body, health_body, no_deck_body, set_body, sets_body,
};
use std::alloc::{AllocError, Global};

/// The page at this path of the desk as it stands, with this body if it is asked by POST (docs/manual/smsd.md, "What
/// pages show").
pub fn show_page<D: ShownDesk>(
    alloc: Global,
    desk: &D,
    posts: bool,
    path: &[u8],
    body: &[u8],
) -> Result<Page, AllocError>
    ensures { IfOk result (λ page. (s : DeskState) → D.stands desk.now s →
        IsPage s (D.journal desk.now) (record { posts = posts; path = path.now; body = body.now }) page) }
{
    let asked = read_page_path(alloc, path)?;
    if posts {
        return posted(alloc, desk, &asked, body);
    }
    gotten(alloc, desk, asked)
}

// The page at a path that is asked for by POST.
fn posted<D: ShownDesk>(
    alloc: Global,
    desk: &D,
    asked: &PagePath,
    body: &[u8],
) -> Result<Page, AllocError>
    ensures { IfOk result (λ page. (s : DeskState) → D.stands desk.now s → IsPosted s body.now asked.now page) }
{
    match asked {
        PagePath::Check => check(alloc, desk, body),
        PagePath::Trial { shows, job, dsn } => trial(alloc, desk, *shows, job, dsn, body),
        PagePath::Missing => missing(alloc),
        PagePath::Bad => bad(alloc),
        PagePath::Home
        | PagePath::Style
        | PagePath::Script
        | PagePath::Desk
        | PagePath::Health
        | PagePath::Answers
        | PagePath::Deck
        | PagePath::Groups
        | PagePath::Volumes
        | PagePath::Volume { .. }
        | PagePath::Sets { .. }
        | PagePath::Set(_) => refused(alloc, PageStatus::NotAllowed, b"this page is read by GET"),
    }
}

// The page that is read at a path.
fn gotten<D: ShownDesk>(alloc: Global, desk: &D, asked: PagePath) -> Result<Page, AllocError>
    ensures { IfOk result (λ page. (s : DeskState) → D.stands desk.now s →
        IsGotten s (D.journal desk.now) asked page) }
{
    match asked {
        PagePath::Home => filed(alloc, PageKind::Markup, desk_markup()),
        PagePath::Style => filed(alloc, PageKind::Style, desk_style()),
        PagePath::Script => filed(alloc, PageKind::Script, desk_script()),
        PagePath::Desk => whole(alloc, desk),
        PagePath::Health => health(alloc),
        PagePath::Answers => answers(alloc, desk),
        PagePath::Check | PagePath::Trial { .. } => {
            refused(alloc, PageStatus::NotAllowed, b"this page is asked by POST")
        }
        PagePath::Deck => deck(alloc, desk),
        PagePath::Groups => groups(alloc, desk),
        PagePath::Volumes => volumes(alloc, desk),
        PagePath::Volume { volser, from } => volume(alloc, desk, &volser, from),
        PagePath::Sets { mask, after } => sets(alloc, desk, &mask, after),
        PagePath::Set(dsn) => set(alloc, desk, &dsn),
        PagePath::Bad => bad(alloc),
        PagePath::Missing => missing(alloc),
    }
}

// The desk as a whole.
fn whole<D: ShownDesk>(alloc: Global, desk: &D) -> Result<Page, AllocError>
    ensures { IfOk result (λ page. (s : DeskState) → D.stands desk.now s →
        page ≡ desk_page s (length (D.journal desk.now))) }
{
    let rows = desk.volumes()?;
    let volumes = rows.as_slice().len() as u64;
    let entries = desk.journal().len() as u64;
    let body = desk_body(alloc, desk.activations(), entries, volumes)?;
    Ok(shown(body))
}

// The desk is there.
fn health(alloc: Global) -> Result<Page, AllocError>
    ensures { IfOk result (λ page. page ≡ showing health_body) }
{
    let body = health_body(alloc)?;
    Ok(shown(body))
}

// The text of the active deck.
fn deck<D: ShownDesk>(alloc: Global, desk: &D) -> Result<Page, AllocError>
    ensures { IfOk result (λ page. (s : DeskState) → D.stands desk.now s → page ≡ deck_page s.active) }
{
    match desk.config() {
        Some(config) => {
            let body = deck_body(alloc, config.deck())?;
            Ok(shown(body))
        }
        None => {
            let body = no_deck_body(alloc)?;
            Ok(shown(body))
        }
    }
}

// The last entries of the journal.
fn answers<D: ShownDesk>(alloc: Global, desk: &D) -> Result<Page, AllocError>
    ensures { IfOk result (λ page. page ≡ answers_page (D.journal desk.now)) }
{
    let entries = newest(alloc, desk.journal())?;
    let body = answers_body(alloc, &entries)?;
    Ok(shown(body))
}

// The data sets behind a name that fit a mask.
fn sets<D: ShownDesk>(
    alloc: Global,
    desk: &D,
    mask: &Option<Mask>,
    after: Option<Dsn>,
) -> Result<Page, AllocError>
    ensures { IfOk result (λ page. (s : DeskState) → D.stands desk.now s → IsSetsPage s mask.now after page) }
{
    let listing = list_sets(alloc, desk, mask, after)?;
    let body = sets_body(alloc, &listing.sets, listing.after.as_ref())?;
    Ok(shown(body))
}

// The data set of this name.
fn set<D: ShownDesk>(alloc: Global, desk: &D, dsn: &Dsn) -> Result<Page, AllocError>
    ensures { IfOk result (λ page. (s : DeskState) → D.stands desk.now s →
        page ≡ set_page (set_named dsn.now s.sets)) }
{
    match desk.set(dsn) {
        Some(set) => {
            let body = set_body(alloc, set)?;
            Ok(shown(body))
        }
        None => refused(
            alloc,
            PageStatus::Missing,
            b"no data set of this name is catalogued",
        ),
    }
}

fn bad(alloc: Global) -> Result<Page, AllocError>
    ensures { IfOk result (λ page. page ≡ bad_page) }
{
    refused(
        alloc,
        PageStatus::Bad,
        b"a segment of this path is no name, serial, number or mask",
    )
}

fn missing(alloc: Global) -> Result<Page, AllocError>
    ensures { IfOk result (λ page. page ≡ missing_page) }
{
    refused(alloc, PageStatus::Missing, b"there is no page at this path")
}
