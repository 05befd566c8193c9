//! Conversations over a link, with a clerk that refuses each request.
ghost use Rattle.std.specs.Prelude.{◌≡◌, ◌≤◌, ◌<◌, ◌++◌, ◌∷◌, [], List, OnErr, OnOk, length};
ghost use Rattle.http_talk.specs.declared.talk.Talk.{Talk as TalkOf};

use http_talk::{Clerk, End, Talk, serve_connection};
use sms_base::Link;
use sms_construct::{Answer, Reply, Request};
use std::alloc::{AllocError, Global};

/// Answers each request R12, at places from 1 on.
#[derive(Drop)]
struct Refuser {
    talks: Vec<Talk>,
}

impl Clerk for Refuser {
    ghost Start = { Unit {0} };

    ghost talks = { λ c. c.talks.items };

    ghost start = { λ c. tt };

    fn handle(&mut self, request: &Request) -> Result<&Answer, AllocError> {
        match refuse(self, request) {
            Ok(()) => Ok(last(self)),
            Err(error) => Err(error),
        }
    }
}

// The answer that was stored last.
fn last(clerk: &Refuser) -> &Answer
    requires { 0 < length clerk.now.talks.items }
    ensures { (one : TalkOf) (before : List TalkOf)
        → clerk.now.talks.items ≡ before ++ one ∷ [] → result.now ≡ one.answer }
{
    &clerk.talks[clerk.talks.len() - 1].answer
}

// Stores the request with its answer.
fn refuse(clerk: &mut Refuser, request: &Request) -> Result<(), AllocError>
    ensures ok { OnOk result ((one : TalkOf)
        × (clerk.new.talks.items ≡ clerk.old.talks.items ++ one ∷ []) × (one.request ≡ request.now)) }
    ensures err { OnErr result (clerk.new.talks.items ≡ clerk.old.talks.items) }
{
    let request = request.copy()?;
    let place = (clerk.talks.len() as u64).saturating_add(1);
    let answer = Answer {
        place,
        first: place,
        reply: Reply::NoConfig,
    };
    clerk.talks.push(Talk { request, answer })?;
    Ok(())
}

/// How a conversation over a link ends, and what was asked and answered.
pub fn talk_over<L: Link>(alloc: Global, link: &mut L, turns: u64) -> (End, Vec<Talk>)
    requires { 1 ≤ turns }
{
    let mut clerk = Refuser {
        talks: Vec::new(alloc),
    };
    let end = serve_connection(alloc, &mut clerk, link, turns);
    (end, clerk.talks)
}
