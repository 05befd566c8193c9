//! A look at the head at the front of a buffer.
ghost use Rattle.std.specs.Prelude.{◌≡◌, ◌≤◌, All, IfSome, IsUtf8, bytes_eq, codes, is_some, length, map};
ghost use Rattle.httparse.specs.Grammar.{RequestHead};
ghost use Rattle.httparse.specs.Spans.{IsHeaderWithin, header_bytes};
ghost use Rattle.desk_common.specs.Limits.{most_deck_bytes};
ghost use Rattle.http_head.specs.Heads.{IsHeadAt};
ghost use Rattle.http_head.specs.Headers.{asks_close};
ghost use Rattle.http_head.specs.Routes.{route_of};
ghost use Rattle.http_page.specs.Pages.{IsLook, asks_page, page_size};

use crate::site::Site;
use desk_common::MAX_DECK;
use http_head::{
    Front, MAX_HEADERS, Routes, has_close, has_header, is_path, read_front, read_length,
};
use httparse::spans::{EMPTY_HEADER_SPAN, HeaderSpan, RequestSpans, Span};

/// What the head at the front of a buffer shows beside the desk's messages.
#[derive(Clone, Copy, Drop)]
pub enum Look {
    /// Nothing: there is no whole head, or what stands there is the desk's to read.
    Desk,
    /// It isn't asked from this site.
    Elsewhere,
    /// It asks for a page: the head has `start` bytes, and the body behind it `size`.
    Page {
        posts: bool,
        path: Span,
        start: usize,
        size: usize,
        closes: bool,
    },
}

/// What the head at the front of the buffer shows beside the desk's messages (docs/manual/smsd.md, "Pages").
pub fn read_look(routes: &Routes, site: &Site, buf: &[u8]) -> Look
    ensures { IsLook site.now buf.now result }
{
    let mut headers = [EMPTY_HEADER_SPAN; MAX_HEADERS];
    match read_front(buf, &mut headers) {
        Front::Whole(spans) => look_at(routes, site, buf, &headers, spans),
        Front::More => Look::Desk,
        Front::Bad => Look::Desk,
        Front::TooLarge => Look::Desk,
    }
}

// What the head shows that these are the spans of.
fn look_at(
    routes: &Routes,
    site: &Site,
    buf: &[u8],
    headers: &[HeaderSpan; MAX_HEADERS],
    spans: RequestSpans,
) -> Look
    requires { (head : RequestHead) × IsHeadAt buf.now headers.now spans head }
    ensures { IsLook site.now buf.now result }
{
    let fields = &headers[..spans.headers];
    if !site.is_asked(buf, fields) {
        return Look::Elsewhere;
    }
    let method = spans.method.of(buf);
    if !asks_page(routes, method, spans.path.of(buf)) {
        return Look::Desk;
    }
    match page_size(buf, fields) {
        Some(size) => Look::Page {
            posts: is_post(method),
            path: spans.path,
            start: spans.len,
            size: size as usize,
            closes: asks_close(spans.version, buf, fields),
        },
        None => Look::Desk,
    }
}

// Whether a head of this method and target asks for a page.
fn asks_page(routes: &Routes, method: &[u8], target: &[u8]) -> bool
    requires { IsUtf8 target.now }
    ensures { result ≡ asks_page method.now target.now }
{
    if !is_path(target) {
        return false;
    }
    if is_get(method) {
        return true;
    }
    is_post(method) && !has_route(routes, target)
}

fn has_route(routes: &Routes, target: &[u8]) -> bool
    requires { IsUtf8 target.now }
    ensures { result ≡ is_some (route_of target.now) }
{
    let Ok(path) = str::from_utf8(target) else {
        unreachable!()
    };
    routes.find(path).is_some()
}

fn is_get(method: &[u8]) -> bool
    ensures { result ≡ bytes_eq method.now (codes "GET") }
{
    method == b"GET".as_slice()
}

fn is_post(method: &[u8]) -> bool
    ensures { result ≡ bytes_eq method.now (codes "POST") }
{
    method == b"POST".as_slice()
}

// The length of the body of a page, if it is stated and within the limit.
fn page_size(buf: &[u8], headers: &[HeaderSpan]) -> Option<u64>
    requires { All (IsHeaderWithin (length buf.now)) headers.now }
    ensures value { result ≡ page_size (map (header_bytes buf.now) headers.now) }
    ensures small { IfSome result (λ size. size ≤ most_deck_bytes) }
{
    if has_header(buf, headers, b"transfer-encoding") {
        return None;
    }
    let size = read_length(buf, headers, b"content-length")?;
    if size <= MAX_DECK as u64 {
        Some(size)
    } else {
        None
    }
}

fn asks_close(minor: u8, buf: &[u8], headers: &[HeaderSpan]) -> bool
    requires { All (IsHeaderWithin (length buf.now)) headers.now }
    ensures { result ≡ asks_close minor (map (header_bytes buf.now) headers.now) }
{
    minor == 0 || has_close(buf, headers, b"connection")
}
