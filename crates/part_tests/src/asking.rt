//! A client that asks again only once it has its answer.
ghost use Rattle.std.specs.Prelude.{None, refl};

use crate::talking::talk_over;
use http_talk::End;
use sms_base::{Failed, Link, Sink, Source};
use std::test::Fail;

/// What it asks, each time.
static ASKED: &[u8] = b"POST /job/A/1/extend/A HTTP/1.1\r\n\r\n";

/// The link of such a client, which asks twice.
#[derive(Drop)]
struct AskingLink {
    asked: u8,
    is_answered: bool,
}

impl Source for AskingLink {
    ghost left = { λ _. None };

    ghost read_faults = { λ _. 0 };

    fn read(&mut self, buf: &mut [u8]) -> Result<usize, Failed> {
        if self.asked >= 2 || !self.is_answered {
            return Ok(0);
        }
        self.asked += 1;
        self.is_answered = false;
        let count = ASKED.len().min(buf.len());
        buf[..count].copy_from_slice(&ASKED[..count]);
        Ok(count)
    }
}

impl Sink for AskingLink {
    ghost taken = { λ _. None };

    ghost write_faults = { λ _. 0 };

    fn write(&mut self, piece: &[u8]) -> Result<usize, Failed> {
        self.is_answered = true;
        Ok(piece.len())
    }
}

impl Link for AskingLink {
    ghost reads_leave = { λ _. refl };

    ghost writes_leave = { λ _. refl };
}

#[test]
fn an_answer_is_sent_before_the_next_read(rt: HostRuntime) -> Result<(), Fail> {
    let mut link = AskingLink {
        asked: 0,
        is_answered: true,
    };
    let (end, talks) = talk_over(rt.alloc(), &mut link, 10);
    assert!(rt; end == End::Closed { cut: false } && talks.len() == 2 && link.is_answered);
    Ok(())
}
