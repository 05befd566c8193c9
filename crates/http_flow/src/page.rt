//! Pages.
ghost use Rattle.std.specs.Prelude.{◌≡◌, ◌++◌, IfOk, OnErr, OnOk, codes};
ghost use Rattle.http_answer.specs.AnswerText.{connection_text};
ghost use Rattle.http_flow.specs.PageText.{kind_lines, page_text, status_line};

use crate::page_kind::PageKind;
use desk_common::{Items, push_number};
use std::alloc::{AllocError, Global};

/// The status of a page.
#[derive(Clone, Copy, Debug, PartialEq, Eq)]
pub enum PageStatus {
    /// 200: the page shows what was asked.
    Shown,
    /// 400: what was asked isn't as the page asks.
    Bad,
    /// 404: there is no such page, or nothing that it could show.
    Missing,
    /// 405: the path is there for another method.
    NotAllowed,
}

/// A page: its status, of what kind its body is, and the body.
#[derive(Drop)]
pub struct Page {
    pub status: PageStatus,
    pub kind: PageKind,
    pub body: Items<u8>,
}

/// Puts the bytes of a page behind others, or leaves those as they are where memory is wanting
/// (docs/manual/smsd.md, "Pages").
pub fn push_page(
    alloc: Global,
    text: &mut Vec<u8>,
    page: &Page,
    closes: bool,
) -> Result<(), AllocError>
    ensures ok { OnOk result (text.new.items ≡ text.old.items ++ page_text page.now closes) }
    ensures err { OnErr result (text.new.items ≡ text.old.items) }
{
    let bytes = page_bytes(alloc, page, closes)?;
    text.extend_from_slice(&bytes)
}

fn page_bytes(alloc: Global, page: &Page, closes: bool) -> Result<Vec<u8>, AllocError>
    ensures { IfOk result (λ bytes. bytes.items ≡ page_text page.now closes) }
{
    let body = page.body.as_slice();
    let mut text = Vec::new(alloc);
    text.extend_from_slice(status_line(page.status))?;
    text.extend_from_slice(kind_lines(page.kind))?;
    text.extend_from_slice(b"Content-Length: ")?;
    push_number(&mut text, body.len() as u64)?;
    text.extend_from_slice(b"\r\nConnection: ")?;
    text.extend_from_slice(connection_text(closes))?;
    text.extend_from_slice(b"\r\n\r\n")?;
    text.extend_from_slice(body)?;
    Ok(text)
}

fn status_line(status: PageStatus) -> &'static [u8]
    ensures { result.now ≡ status_line status }
{
    match status {
        PageStatus::Shown => b"HTTP/1.1 200 OK\r\n",
        PageStatus::Bad => b"HTTP/1.1 400 Bad Request\r\n",
        PageStatus::Missing => b"HTTP/1.1 404 Not Found\r\n",
        PageStatus::NotAllowed => b"HTTP/1.1 405 Method Not Allowed\r\n",
    }
}

// The headers that a kind of body has. A browser takes nothing for the markup but what this desk serves, and shows it in
// no other site's frame.
fn kind_lines(kind: PageKind) -> &'static [u8]
    ensures { result.now ≡ kind_lines kind }
{
    match kind {
        PageKind::Json => b"Content-Type: application/json\r\n",
        PageKind::Markup => {
            b"Content-Type: text/html; charset=utf-8\r\nX-Content-Type-Options: nosniff\r\n\
            Content-Security-Policy: default-src 'self'; frame-ancestors 'none'; base-uri 'none'; form-action 'none'\r\n"
        }
        PageKind::Style => {
            b"Content-Type: text/css; charset=utf-8\r\nX-Content-Type-Options: nosniff\r\n"
        }
        PageKind::Script => {
            b"Content-Type: text/javascript; charset=utf-8\r\nX-Content-Type-Options: nosniff\r\n"
        }
    }
}

fn connection_text(closes: bool) -> &'static [u8]
    ensures { result.now ≡ connection_text closes }
{
    if closes { b"close" } else { b"keep-alive" }
}
