//! The site under which a desk is reached.
ghost use Rattle.std.specs.Prelude.{◌≡◌, ◌++◌, All, IfOk, codes, decimal, length, map};
ghost use Rattle.std.specs.List.{list_all};
ghost use Rattle.std.specs.Str.{str_eq_ignore_ascii_case};
ghost use Rattle.httparse.specs.Spans.{IsHeaderWithin, header_bytes};
ghost use Rattle.http_page.specs.Sites.{host_text, is_asked_here, is_fetch, is_host, is_origin, is_own};

use desk_common::push_number;
use http_head::has_header;
use httparse::spans::HeaderSpan;
use std::alloc::{AllocError, Global};
use std::marker::Model;

// The bytes of `http://`.
const SCHEME: usize = 7;

/// The site of a port of this machine; contracts see the port (docs/manual/smsd.md, "Who may ask").
#[derive(Drop)]
pub struct Site {
    port: u16,
    address: Vec<u8>,
    name: Vec<u8>,
    address_six: Vec<u8>,
}

impl Model for Site {
    ghost use Rattle.std.specs.Prelude.{◌≡◌, ℕ, codes};
    ghost use Rattle.http_page.specs.Sites.{host_text};

    ghost Value = { ℕ };

    ghost view = { λ s. s.port };

    ghost invariant = { λ s. (s.address.items ≡ host_text (codes "127.0.0.1") s.port)
        × (s.name.items ≡ host_text (codes "localhost") s.port)
        × (s.address_six.items ≡ host_text (codes "[::1]") s.port) };
}

impl Site {
    /// The site of this port.
    pub fn new(alloc: Global, port: u16) -> Result<Self, AllocError>
        ensures { IfOk result (λ site. site ≡ port) }
    {
        let address = host_text(alloc, b"127.0.0.1", port)?;
        let name = host_text(alloc, b"localhost", port)?;
        let address_six = host_text(alloc, b"[::1]", port)?;
        Ok(Site {
            port,
            address,
            name,
            address_six,
        })
    }

    /// Whether a head with these headers is asked from this site.
    pub fn is_asked(&self, buf: &[u8], headers: &[HeaderSpan]) -> bool
        requires { All (IsHeaderWithin (length buf.now)) headers.now }
        ensures { result ≡ is_asked_here self.now (map (header_bytes buf.now) headers.now) }
    {
        has_header(buf, headers, b"host") && self.are_own(buf, headers)
    }

    fn are_own(&self, buf: &[u8], headers: &[HeaderSpan]) -> bool
        requires { All (IsHeaderWithin (length buf.now)) headers.now }
        ensures { result ≡ list_all (is_own self.now) (map (header_bytes buf.now) headers.now) }
    {
        let mut rest = headers;
        while let Some((header, others)) = rest.split_first() {
            if !self.is_own(header.name.of(buf), header.value.of(buf)) {
                return false;
            }
            rest = others;
        }
        true
    }

    fn is_own(&self, name: &[u8], value: &[u8]) -> bool
        ensures { result ≡ is_own self.now (name.now, value.now) }
    {
        if is_text(name, b"host") {
            return self.is_host(value);
        }
        if is_text(name, b"origin") {
            return self.is_origin(value);
        }
        if is_text(name, b"sec-fetch-site") {
            return is_fetch(value);
        }
        true
    }

    fn is_host(&self, value: &[u8]) -> bool
        ensures { result ≡ is_host self.now value.now }
    {
        is_text(value, &self.address)
            || is_text(value, &self.name)
            || is_text(value, &self.address_six)
    }

    fn is_origin(&self, value: &[u8]) -> bool
        ensures { result ≡ is_origin self.now value.now }
    {
        if value.len() < SCHEME {
            return false;
        }
        is_text(&value[..SCHEME], b"http://") && self.is_host(&value[SCHEME..])
    }
}

fn is_fetch(value: &[u8]) -> bool
    ensures { result ≡ is_fetch value.now }
{
    is_text(value, b"same-origin") || is_text(value, b"none")
}

// Whether the two are equal in any case.
fn is_text(bytes: &[u8], text: &[u8]) -> bool
    ensures { result ≡ str_eq_ignore_ascii_case bytes.now text.now }
{
    bytes.eq_ignore_ascii_case(text)
}

// A name with a port behind it.
fn host_text(alloc: Global, name: &[u8], port: u16) -> Result<Vec<u8>, AllocError>
    ensures { IfOk result (λ text. text.items ≡ host_text name.now port) }
{
    let mut text = Vec::new(alloc);
    text.extend_from_slice(name)?;
    text.push(b':')?;
    push_number(&mut text, u64::from(port))?;
    Ok(text)
}
