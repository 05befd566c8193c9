//! What came of a connection and what it took, as far as both aren't compared yet.
use http_head::Routes;
use http_message::{Next, read_message};
use page_text::push_said_refusal;
use sms_construct::Request;
use std::alloc::{AllocError, Global};

/// Asks for the page that says that the desk is served.
pub const HEALTH: &str = "GET /health HTTP/1.1\r\nHost: 127.0.0.1:8080\r\n\r\n";

/// Asks from elsewhere.
pub const ELSEWHERE: &str = "POST /admin/1/activate HTTP/1.1\r\nHost: desk.example\r\n\r\n";

const HEALTHY: &[u8] = b"HTTP/1.1 200 OK\r\nContent-Type: application/json\r\n\
    Content-Length: 15\r\nConnection: keep-alive\r\n\r\n{\"health\":\"ok\"}";

// No connection is told so much without the desk.
const MOST_TOLD: u32 = 100;

const PLACE: &[u8] = b"\"place\":";

/// What the front of some bytes asks: the desk; or what is told without it; or nothing whole.
#[derive(Drop)]
pub enum Asked {
    Desk {
        len: usize,
        request: Request,
        closes: bool,
    },
    Told {
        len: usize,
        text: Vec<u8>,
        closes: bool,
    },
    Nothing,
}

/// What the front of these bytes asks.
pub fn asked_at(alloc: Global, routes: &Routes, bytes: &[u8]) -> Result<Asked, AllocError> {
    if bytes.starts_with(HEALTH.as_bytes()) {
        let text = Vec::from_slice(alloc, HEALTHY)?;
        return Ok(Asked::Told {
            len: HEALTH.len(),
            text,
            closes: false,
        });
    }
    if bytes.starts_with(ELSEWHERE.as_bytes()) {
        return refused(alloc, 403);
    }
    match read_message(alloc, routes, bytes)? {
        Next::Message {
            len,
            request,
            closes,
        } => Ok(Asked::Desk {
            len,
            request,
            closes,
        }),
        Next::Refusal(status) => refused(alloc, status),
        Next::Wait { .. } => Ok(Asked::Nothing),
    }
}

// A refusal with this status.
fn refused(alloc: Global, status: u16) -> Result<Asked, AllocError> {
    let mut text = Vec::new(alloc);
    push_said_refusal(alloc, &mut text, status.clamp(100, 999))?;
    Ok(Asked::Told {
        len: 0,
        text,
        closes: true,
    })
}

/// What came of a connection and what it took, as far as both aren't compared yet.
#[derive(Drop)]
pub struct Heard<'a> {
    came: &'a [u8],
    taken: &'a [u8],
    // The place in the next answer that it took.
    place: Option<u64>,
    // Its last answer was given, or it took less than that.
    over: bool,
    cut: bool,
    // It took something else.
    wrong: bool,
}

impl<'a> Heard<'a> {
    /// All of both.
    pub fn new(came: &'a [u8], taken: &'a [u8]) -> Self {
        Heard {
            came,
            taken,
            place: None,
            over: false,
            cut: false,
            wrong: false,
        }
    }

    /// What came.
    pub fn rest(&self) -> &'a [u8] {
        if self.over { &[] } else { self.came }
    }

    /// It took a part of an answer alone, or less than was answered.
    pub fn is_cut(&self) -> bool {
        self.cut
    }

    /// It took all that it was told, and nothing else.
    pub fn is_done(&self) -> bool {
        !self.wrong && self.taken.is_empty()
    }

    /// The place in the next answer that it took, if it took one to its end.
    pub fn place(&self) -> Option<u64> {
        self.place
    }

    // Finds that place.
    fn find_place(&mut self) {
        self.place = place_in(self.taken);
    }

    /// It is told this for so many bytes.
    pub fn take(&mut self, len: usize, text: &[u8], closes: bool) {
        self.came = self.came.get(len..).unwrap_or(&[]);
        self.over = self.over || closes;
        if self.taken.starts_with(text) {
            self.taken = self.taken.get(text.len()..).unwrap_or(&[]);
        } else {
            self.cut = true;
            self.wrong = self.wrong || !text.starts_with(self.taken);
            self.taken = &[];
        }
    }

    /// Passes over what it is told without the desk, up to its next question to the desk.
    pub fn settle(&mut self, alloc: Global, routes: &Routes) -> Result<(), AllocError> {
        for _ in 0..MOST_TOLD {
            match asked_at(alloc, routes, self.rest())? {
                Asked::Told { len, text, closes } => self.take(len, &text, closes),
                Asked::Desk { .. } | Asked::Nothing => break,
            }
        }
        self.find_place();
        Ok(())
    }
}

// The first place that an answer among these bytes has.
fn place_in(bytes: &[u8]) -> Option<u64> {
    let at = bytes.windows(8).position(|word| word == PLACE)?;
    number_at(bytes.get(at..)?)
}

// The number behind the word for a place.
fn number_at(bytes: &[u8]) -> Option<u64> {
    let digits = bytes.get(PLACE.len()..)?;
    let end = digits.iter().position(|byte| *byte == b'}')?;
    let mut number: u64 = 0;
    for digit in digits.get(..end)? {
        number = number.wrapping_mul(10).wrapping_add(u64::from(*digit & 15));
    }
    Some(number)
}
