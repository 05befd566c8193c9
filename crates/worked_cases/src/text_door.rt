//! Doors in memory, whose links a text writes.
ghost use Rattle.std.specs.Prelude.{None, IfOk};
ghost use Rattle.sms_base.specs.Links.{IsUntouched};

use crate::meeting::Meeting;
use sms_base::{Accept, Failed, MemLink};
use std::alloc::{AllocError, Global};

/// A door that gives its links one after the other, each once the other doors of its meeting were asked too, and then
/// ends or fails. It keeps what they were sent.
#[derive(Drop)]
pub struct TextDoor<'a> {
    alloc: Global,
    meeting: &'a Meeting,
    links: Vec<String>,
    room: usize,
    fails: bool,
    given: usize,
    ended: bool,
    faults: u64,
    link_faults: u64,
    sent: String,
}

impl<'a> TextDoor<'a> {
    /// The door that the text writes: behind each `<link ` its words, `>` and what it gives; it fails where `<fails>`
    /// ends it. Each link takes so many bytes.
    pub fn of(
        alloc: Global,
        text: &str,
        room: usize,
        meeting: &'a Meeting,
    ) -> Result<TextDoor<'a>, AllocError> {
        let links = text.strip_suffix("<fails>").unwrap_or(text);
        Ok(TextDoor {
            alloc,
            meeting,
            links: links_in(alloc, links)?,
            room,
            fails: text.ends_with("<fails>"),
            given: 0,
            ended: false,
            faults: 0,
            link_faults: 0,
            sent: String::new(alloc),
        })
    }

    /// For each link that came back a line `LINK` and what it was sent.
    pub fn sent(&self) -> &str {
        self.sent.as_str()
    }
}

// What stands behind each `<link `.
fn links_in(alloc: Global, text: &str) -> Result<Vec<String>, AllocError> {
    let mut links = Vec::new(alloc);
    let mut parts = text.split("<link ");
    let _front = parts.next();
    for link in parts {
        links.push(String::from_str(alloc, link)?)?;
    }
    Ok(links)
}

// The link that the text writes: the most bytes at a call, which read or write fails, and what it gives.
fn link_of(alloc: Global, text: &str, room: usize) -> Result<MemLink, AllocError>
    ensures { IfOk result IsUntouched }
{
    let (words, bytes) = text.split_once(">").unwrap_or((text, ""));
    let piece = piece_of(words);
    Ok(MemLink::new(
        bytes.as_bytes().to_vec(alloc)?,
        vec![in alloc; 0; room]?,
        piece.max(1),
        number_behind(alloc, words, " read ")?,
        number_behind(alloc, words, " write ")?,
    ))
}

// The first of the words as a number, or 1.
fn piece_of(words: &str) -> usize {
    match words.split(' ').next() {
        Some(word) => word.parse::<usize>().unwrap_or(1),
        None => 1,
    }
}

// The number behind this word, if it is there.
fn number_behind(alloc: Global, words: &str, word: &str) -> Result<Vec<u64>, AllocError> {
    let mut numbers = Vec::new(alloc);
    if let Some((_, number)) = words.split_once(word) {
        numbers.push(number.parse::<u64>().unwrap_or(0))?;
    }
    Ok(numbers)
}

// Adds a line and what a link was sent, if anything.
fn push_sent(sent: &mut String, bytes: &[u8]) -> Result<(), AllocError> {
    sent.push_str("LINK\n")?;
    if bytes.is_empty() {
        return Ok(());
    }
    sent.push_str(std::str::from_utf8(bytes).unwrap_or("no text"))?;
    sent.push_str("\n")
}

impl<'a> Accept for TextDoor<'a> {
    type Conn = MemLink;

    ghost given = { λ d. d.given };

    ghost ended = { λ d. d.ended };

    ghost door_faults = { λ d. d.faults };

    ghost link_faults = { λ d. d.link_faults };

    ghost waiting = { λ _. None };

    ghost back = { λ _. None };

    fn accept(&mut self) -> Result<Option<MemLink>, Failed> {
        self.meeting.meet();
        if self.ended {
            return Ok(None);
        }
        if self.given < self.links.len() {
            let Ok(link) = link_of(self.alloc, &self.links[self.given], self.room) else {
                self.faults = self.faults.saturating_add(1);
                return Err(Failed);
            };
            self.given += 1;
            return Ok(Some(link));
        }
        if self.fails {
            self.faults = self.faults.saturating_add(1);
            return Err(Failed);
        }
        self.ended = true;
        Ok(None)
    }

    fn done(&mut self, link: MemLink) {
        if link.has_failed() {
            self.link_faults = self.link_faults.saturating_add(1);
        }
        // Where memory is wanting, a front of it stays.
        let _ = push_sent(&mut self.sent, link.taken());
    }
}

/// So many doors: those that the text writes, with `<door>` between them, and behind them doors without links.
pub fn doors_of<'a>(
    alloc: Global,
    text: &str,
    count: usize,
    room: usize,
    meeting: &'a Meeting,
) -> Result<Vec<TextDoor<'a>>, AllocError> {
    let mut doors = Vec::new(alloc);
    for part in text.split("<door>") {
        doors.push(TextDoor::of(alloc, part, room, meeting)?)?;
    }
    for _ in doors.len()..count {
        doors.push(TextDoor::of(alloc, "", room, meeting)?)?;
    }
    Ok(doors)
}
