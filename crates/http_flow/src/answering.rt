//! Answering what a buffer asks.
ghost use Rattle.std.specs.Prelude.{◌≡◌, ◌≤◌, ◌<◌, ◌++◌, true, OnErr, OnOk, ℕ};
ghost use Rattle.http_page.specs.Pages.{HasNoPage, IsFromHere};
ghost use Rattle.http_flow.specs.PageText.{page_text};
ghost use Rattle.http_flow.specs.Inner.Fronts.{IsFront, IsNext, IsOne, IsRefusal};
ghost use Rattle.http_flow.specs.declared.page.Page.{Page as PageOf};

use crate::page::push_page;
use crate::pages::Pages;
use http_answer::push_answer;
use http_head::Routes;
use http_message::{Next, read_message};
use http_page::{Look, Site, read_look};
use sms_construct::Request;
use std::alloc::{AllocError, Global};

// So many bytes may be due before one more question is answered.
const MOST_DUE: usize = 65_536;

// The status of what is asked from elsewhere.
const ELSEWHERE: u16 = 403;

/// What the front of a buffer came to when its questions were answered.
#[derive(Clone, Copy, Debug, PartialEq, Eq)]
pub enum Front {
    /// Nothing whole is left from `at` on; nothing can be before the rest has `need` bytes.
    Waits { at: usize, need: usize },
    /// As many bytes are due as may be, or the clerk has no room; nothing is answered from `at` on.
    Full { at: usize },
    Closed,
    Refused(u16),
    NoMemory,
}

/// What the first question of a buffer came to.
#[derive(Clone, Copy, Debug, PartialEq, Eq)]
pub enum Answered {
    /// It has so many bytes; more may follow.
    On { len: usize },
    /// It closes the connection.
    Last,
    /// None is whole, nor can be before so many bytes are there.
    Waits { need: usize },
    Refused(u16),
    NoMemory,
}

/// Answers the whole questions at the buffer's front while few bytes are due and the clerk has room, and puts the
/// answers behind `out`.
pub fn answer_front<C: Pages>(
    alloc: Global,
    routes: &Routes,
    site: &Site,
    clerk: &mut C,
    buffer: &[u8],
    out: &mut Vec<u8>,
) -> Front
    ensures { IsFront (record { port = site.now; refusal = C.refusal }) C.shows
        (record { talks = C.talks clerk.old; start = C.begun clerk.old })
        (record { talks = C.talks clerk.new; start = C.begun clerk.new })
        buffer.now out.old.items out.new.items result }
{
    let mut at = 0;
    while out.len() < MOST_DUE {
        if !clerk.has_room() {
            return Front::Full { at };
        }
        match answer_next(alloc, routes, site, clerk, &buffer[at..], out) {
            Answered::On { len } => at += len,
            Answered::Last => return Front::Closed,
            Answered::Waits { need } => return Front::Waits { at, need },
            Answered::Refused(status) => return Front::Refused(status),
            Answered::NoMemory => return Front::NoMemory,
        }
    }
    Front::Full { at }
}

// Answers the first question of a buffer.
fn answer_next<C: Pages>(
    alloc: Global,
    routes: &Routes,
    site: &Site,
    clerk: &mut C,
    buf: &[u8],
    out: &mut Vec<u8>,
) -> Answered
    requires { (C.begun clerk.old).has_room (C.talks clerk.old) ≡ true }
    ensures { IsNext (record { port = site.now; refusal = C.refusal }) C.shows
        (record { talks = C.talks clerk.old; start = C.begun clerk.old })
        (record { talks = C.talks clerk.new; start = C.begun clerk.new })
        buf.now out.old.items out.new.items result }
{
    match read_look(routes, site, buf) {
        Look::Elsewhere => refuse(alloc, clerk, ELSEWHERE, out),
        Look::Page {
            posts,
            path,
            start,
            size,
            closes,
        } => {
            if buf.len() - start < size {
                return Answered::Waits { need: start + size };
            }
            let body = &buf[start..start + size];
            if show(alloc, clerk, posts, path.of(buf), body, closes, out).is_err() {
                return Answered::NoMemory;
            }
            if closes {
                return Answered::Last;
            }
            Answered::On { len: start + size }
        }
        Look::Desk => answer_desk(alloc, routes, clerk, buf, out),
    }
}

// Answers the desk's message at the front of a buffer.
fn answer_desk<C: Pages>(
    alloc: Global,
    routes: &Routes,
    clerk: &mut C,
    buf: &[u8],
    out: &mut Vec<u8>,
) -> Answered
    requires { (C.begun clerk.old).has_room (C.talks clerk.old) ≡ true }
    ensures { (port : ℕ) → IsFromHere port buf.now → HasNoPage buf.now
        → IsNext (record { port = port; refusal = C.refusal }) C.shows
        (record { talks = C.talks clerk.old; start = C.begun clerk.old })
        (record { talks = C.talks clerk.new; start = C.begun clerk.new })
        buf.now out.old.items out.new.items result }
{
    let Ok(next) = read_message(alloc, routes, buf) else {
        return Answered::NoMemory;
    };
    match next {
        Next::Message {
            len,
            request,
            closes,
        } => {
            if answer_one(alloc, clerk, &request, closes, out).is_err() {
                return Answered::NoMemory;
            }
            if closes {
                return Answered::Last;
            }
            Answered::On { len }
        }
        Next::Refusal(status) => refuse(alloc, clerk, status, out),
        Next::Wait { need } => Answered::Waits { need },
    }
}

// Puts a refusal behind what is due.
fn refuse<C: Pages>(alloc: Global, clerk: &C, status: u16, out: &mut Vec<u8>) -> Answered
    requires { (100 ≤ status) × (status < 1000) }
    ensures { IsRefusal C.refusal status out.old.items out.new.items result }
{
    match clerk.refuse(alloc, out, status) {
        Ok(()) => Answered::Refused(status),
        Err(_) => Answered::NoMemory,
    }
}

// Puts the page that is asked for behind what is due.
fn show<C: Pages>(
    alloc: Global,
    clerk: &C,
    posts: bool,
    path: &[u8],
    body: &[u8],
    closes: bool,
    out: &mut Vec<u8>,
) -> Result<(), AllocError>
    ensures ok { OnOk result ((page : PageOf)
        × C.shows (C.begun clerk.now) (C.talks clerk.now)
        (record { posts = posts; path = path.now; body = body.now }) page
        × (out.new.items ≡ out.old.items ++ page_text page closes)) }
    ensures err { OnErr result (out.new.items ≡ out.old.items) }
{
    let page = clerk.show(alloc, posts, path, body)?;
    push_page(alloc, out, &page, closes)
}

// Hands one request to the clerk; its answer is put behind what is due.
fn answer_one<C: Pages>(
    alloc: Global,
    clerk: &mut C,
    request: &Request,
    closes: bool,
    out: &mut Vec<u8>,
) -> Result<(), AllocError>
    ensures { IsOne
        (record { talks = C.talks clerk.old; start = C.begun clerk.old })
        (record { talks = C.talks clerk.new; start = C.begun clerk.new })
        request.now closes out.old.items out.new.items result }
{
    let Ok(answer) = clerk.handle(request) else {
        return Err(AllocError);
    };
    match push_answer(alloc, out, answer, closes) {
        Ok(()) => Ok(()),
        Err(error) => Err(error),
    }
}
