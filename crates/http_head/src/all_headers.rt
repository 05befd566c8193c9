//! Whether a buffer begins with as many headers as a head may have.
ghost use Rattle.std.specs.Prelude.{◌≡◌, ◌<◌, ◌≤◌, ◌↔◌, drop, length, IfSome, IsTrue, None};
ghost use Rattle.http_head.specs.Heads.{AreAllHeaders, HasAllHeaders, line_feeds};
ghost use Rattle.http_head.specs.Inner.Feeds.{behind_empty, IsFeedBehind};
ghost use Rattle.http_head.specs.Inner.Full.{is_full};
ghost use Rattle.http_head.specs.Limits.{most_head_bytes};

use httparse::Status;
use httparse::spans::{EMPTY_HEADER_SPAN, RequestSpans, parse_request};

/// The most headers of a head.
pub const MAX_HEADERS: usize = 32;

/// The most bytes of a head.
pub const MAX_HEAD: usize = 8_192;

/// Whether a first line and as many good header lines as a head may have stand at the front.
pub fn has_all_headers(buf: &[u8]) -> bool
    ensures { IsTrue result ↔ HasAllHeaders buf.now }
{
    let empty = size_of_empty_lines(buf);
    let Some(at) = nth_line_feed(&buf[empty..], MAX_HEADERS) else {
        return false;
    };
    empty + at < MAX_HEAD && are_all_headers(&buf[..empty + at])
}

// The size of the empty lines that a head may have before its first line.
fn size_of_empty_lines(buf: &[u8]) -> usize
    ensures fits { result ≤ length buf.now }
    ensures behind { drop result buf.now ≡ behind_empty buf.now }
{
    for at in 0..buf.len() {
        if !matches!(buf[at], b'\r' | b'\n') {
            return at;
        }
    }
    buf.len()
}

// The place of the line feed that has so many before it.
fn nth_line_feed(text: &[u8], count: usize) -> Option<usize>
    ensures some { IfSome result (IsFeedBehind text.now count) }
    ensures none { result ≡ None → line_feeds text.now ≤ count }
{
    let mut before = 0;
    for at in 0..text.len() {
        if text[at] == b'\n' {
            if before == count {
                return Some(at);
            }
            before += 1;
        }
    }
    None
}

// Whether these lines, their end and an empty line are a head with as many headers as one may have.
fn are_all_headers(lines: &[u8]) -> bool
    requires { length lines.now < most_head_bytes }
    ensures { IsTrue result ↔ AreAllHeaders lines.now }
{
    let mut text = [b'\n'; MAX_HEAD + 1];
    text[..lines.len()].copy_from_slice(lines);
    let mut headers = [EMPTY_HEADER_SPAN; MAX_HEADERS];
    let parsed = parse_request(&text[..lines.len() + 2], &mut headers);
    is_full(parsed, lines.len() + 2)
}

// Whether a head of so many bytes was found that has as many headers as one may have.
fn is_full(parsed: httparse::Result<RequestSpans>, size: usize) -> bool
    ensures { result ≡ is_full parsed size }
{
    match parsed {
        Ok(Status::Complete(head)) => head.len == size && head.headers == MAX_HEADERS,
        _ => false,
    }
}

/// How many line feeds the bytes have.
pub fn line_feeds(buf: &[u8]) -> usize
    ensures { result ≡ line_feeds buf.now }
{
    let mut count = 0;
    for byte in buf {
        count += usize::from(*byte == b'\n');
    }
    count
}
