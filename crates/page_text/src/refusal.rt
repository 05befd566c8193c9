//! Refusals that say in a sentence what is wrong.
ghost use Rattle.std.specs.Prelude.{◌≡◌, ◌≤◌, ◌<◌, ◌++◌, [], IfOk, OnErr, OnOk, unwrap_or};
ghost use Rattle.http.specs.StatusCode.{reason_phrase};
ghost use Rattle.page_text.specs.RefusalText.{said_refusal, sentence_of};
ghost use Rattle.page_text.specs.Inner.Pieces.{refusal_line, refusal_rest};

use crate::desk_page::error_body;
use desk_common::push_number;
use http::StatusCode;
use std::alloc::{AllocError, Global};

/// Puts the bytes of a refusal whose body says what is wrong behind others, or leaves those as they are where memory is
/// wanting (docs/manual/smsd.md, "Refusals").
pub fn push_said_refusal(alloc: Global, text: &mut Vec<u8>, status: u16) -> Result<(), AllocError>
    requires { (100 ≤ status) × (status < 1000) }
    ensures ok { OnOk result (text.new.items ≡ text.old.items ++ said_refusal status) }
    ensures err { OnErr result (text.new.items ≡ text.old.items) }
{
    let bytes = refusal_bytes(alloc, status)?;
    text.extend_from_slice(&bytes)
}

fn refusal_bytes(alloc: Global, status: u16) -> Result<Vec<u8>, AllocError>
    requires { (100 ≤ status) × (status < 1000) }
    ensures { IfOk result (λ bytes. bytes.items ≡ said_refusal status) }
{
    let body = error_body(alloc, sentence_of(status))?;
    let mut text = Vec::new(alloc);
    push_line(&mut text, status)?;
    push_rest(&mut text, body.as_slice())?;
    Ok(text)
}

// Puts the first line without its end behind a text.
fn push_line(text: &mut Vec<u8>, status: u16) -> Result<(), AllocError>
    requires { (100 ≤ status) × (status < 1000) }
    ensures { OnOk result (text.new.items ≡ text.old.items ++ refusal_line status) }
{
    text.extend_from_slice(b"HTTP/1.1 ")?;
    push_number(text, u64::from(status))?;
    text.extend_from_slice(b" ")?;
    text.extend_from_slice(phrase_of(status).as_bytes())?;
    Ok(())
}

// Puts what stands behind the first line.
fn push_rest(text: &mut Vec<u8>, body: &[u8]) -> Result<(), AllocError>
    ensures { OnOk result (text.new.items ≡ text.old.items ++ refusal_rest body.now) }
{
    text.extend_from_slice(b"\r\nContent-Type: application/json\r\nContent-Length: ")?;
    push_number(text, body.len() as u64)?;
    text.extend_from_slice(b"\r\nConnection: close\r\n\r\n")?;
    text.extend_from_slice(body)?;
    Ok(())
}

// The reason phrase of a status; nothing where it has none.
fn phrase_of(status: u16) -> &'static str
    requires { (100 ≤ status) × (status < 1000) }
    ensures { result.now ≡ unwrap_or (reason_phrase status) [] }
{
    let Ok(code) = StatusCode::from_u16(status) else {
        unreachable!()
    };
    match code.canonical_reason() {
        Some(phrase) => phrase,
        None => "",
    }
}

// The sentence that says what is wrong.
fn sentence_of(status: u16) -> &'static [u8]
    ensures { result.now ≡ sentence_of status }
{
    match status {
        400 => b"this isn't a request as the desk reads them",
        403 => b"Host, Origin or Sec-Fetch-Site names another site",
        404 => b"no request and no page is asked so",
        405 => b"this path is asked by POST",
        411 => b"a deck needs a Content-Length",
        413 => b"the body is longer than this path allows",
        431 => b"the head is longer than 8192 bytes or has more than 32 headers",
        501 => b"a body with a Transfer-Encoding isn't read",
        503 => b"as many connections are served as may be",
        _ => b"the request is refused",
    }
}
