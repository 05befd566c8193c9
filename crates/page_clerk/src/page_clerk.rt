//! A clerk over a core that shows pages of it.
ghost use Rattle.std.proofs.Common.{ap};
ghost use Rattle.std.specs.Prelude.{◌≡◌, ◌≢◌, ◌<◌, ◌≤◌, ◌+◌, ◌++◌, ◌∷◌, [], false, List, ℕ};
ghost use Rattle.std.specs.Prelude.{IsTrue, OnErr, OnOk, cond, length, min, nat_le};
ghost use Rattle.page_text.specs.RefusalText.{said_refusal};
ghost use Rattle.http_talk.specs.declared.talk.Talk.{Talk as TalkOf};
ghost use Rattle.sms_core.specs.Core.{CoreView};
ghost use Rattle.desk_law.specs.History.{Reaches};
ghost use Rattle.desk_law.specs.Step.{is_activation};
ghost use Rattle.desk_http.specs.Entered.{ClerkView, HasEntered};
ghost use Rattle.page_clerk.specs.Filling.{AreUnfilled, activations_in, is_nearly_full, many_activations};
ghost use Rattle.page_clerk.specs.Shows.{Begun, ShowsPage, begun_with};

use acs_tree::Slate;
use deck_meaning::Config;
use desk_common::Items;
use desk_pages::{ShownDesk, show_page};
use dsn_mask::Dsn;
use http_flow::{Page, Pages};
use http_talk::{Clerk, Talk, Talks};
use page_text::push_said_refusal;
use sms_construct::{Answer, DataSet, Entry, Op, Reply, Request, StorGroup, VolRows};
use sms_core::{Core, Work};
use sms_keeper::Keeper;
use std::alloc::{AllocError, Global};
use std::marker::Model;
use std::snapshot::Snapshot;

// So many entries are many for a journal, which has room for 50,000.
const MANY_ENTRIES: usize = 49_000;

// So many activations that were asked for are many, of 200 for which a journal has room.
const MANY_ACTIVATIONS: usize = 100;

/// Answers requests by the core, one step each, and shows pages of it as it stands. Where the core's journal is full it
/// answers nothing, as where memory is wanting.
#[derive(Drop)]
pub struct PageClerk<P: Keeper> {
    start: Snapshot<Core<P>>,
    core: Core<P>,
    slate: Slate,
    talks: Vec<Talk>,
    // How many of the requests asked for an activation, up to many.
    asked: usize,
}

impl<P: Keeper> Model for PageClerk<P> {
    ghost use Rattle.acs_tree.specs.contracts.routine.Form as form;
    ghost use Rattle.std.specs.Coded.{codes};
    ghost use Rattle.std.specs.Prelude.{◌≡◌, min};
    ghost use Rattle.desk_http.specs.Entered.{ClerkView, HasEntered};
    ghost use Rattle.page_clerk.specs.Filling.{AreUnfilled, activations_in, many_activations};

    ghost Value = { ClerkView P };

    ghost coded = { Prim.hlevel (codes, form.the_row.coded, P.code) };

    ghost view = { λ c. record { start = c.start.value; core = c.core; talks = c.talks.items } };

    ghost invariant = { λ c. HasEntered c.start.value c.core c.talks.items × AreUnfilled c.talks.items
        × (c.asked ≡ min (activations_in c.talks.items) many_activations) };
}

impl<P: Keeper> PageClerk<P> {
    /// A clerk that works on the core, with no requests so far. It takes no memory.
    pub fn new(alloc: Global, core: Core<P>, slate: Slate) -> Self
        ensures start { result.start ≡ core }
        ensures core { result.core ≡ core }
        ensures talks { result.talks ≡ [] }
    {
        PageClerk {
            start: Snapshot::of(&core),
            core,
            slate,
            talks: Vec::new(alloc),
            asked: 0,
        }
    }

    // Whether the journal of the core is nearly full.
    fn is_nearly_full(&self) -> bool
        ensures { result ≡ is_nearly_full self.now.core.journal self.now.talks }
    {
        self.core.journal().len() >= MANY_ENTRIES || asked_often(self)
    }

    /// The core, the slate and the requests with their answers.
    pub fn into_parts(self) -> (Core<P>, Slate, Talks)
        ensures core { result.0 ≡ self.core }
        ensures talks { result.2 ≡ self.talks }
        ensures entered { HasEntered self.start result.0 result.2 }
        ensures unfilled { AreUnfilled self.talks }
    {
        let PageClerk {
            core,
            slate,
            talks,
            ..
        } = self;
        (core, slate, Items::from_vec(talks))
    }
}

impl<P: Keeper> Clerk for PageClerk<P> {
    ghost Start = { CoreView P };

    ghost talks = { λ c. c.talks };

    ghost start = { λ c. c.start };

    fn handle(&mut self, request: &Request) -> Result<&Answer, AllocError> {
        match hear(self, request) {
            Ok(()) => Ok(last(self)),
            Err(error) => Err(error),
        }
    }
}

// The answer that was stored last.
fn last<P: Keeper>(clerk: &PageClerk<P>) -> &Answer
    requires { 0 < length clerk.now.talks }
    ensures { (one : TalkOf) (before : List TalkOf) → clerk.now.talks ≡ before ++ one ∷ [] → result.now ≡ one.answer }
{
    &clerk.talks[clerk.talks.len() - 1].answer
}

// Whether many of the requests asked for an activation.
fn asked_often<P: Keeper>(clerk: &PageClerk<P>) -> bool
    ensures { result ≡ nat_le many_activations (activations_in clerk.now.talks) }
{
    clerk.asked >= MANY_ACTIVATIONS
}

// One more where the op asks for an activation, up to many.
fn asked_after(asked: usize, op: &Op) -> usize
    requires { asked ≤ many_activations }
    ensures { result ≡ min (asked + cond (is_activation op.now) 1 0) many_activations }
{
    (asked + usize::from(matches!(op, Op::Activate(_)))).min(MANY_ACTIVATIONS)
}

// Whether it says that the journal is full.
fn says_full(answer: &Answer) -> bool
    ensures full { IsTrue result → answer.now.reply ≡ Reply.JournalFull }
    ensures other { result ≡ false → answer.now.reply ≢ Reply.JournalFull }
{
    matches!(answer.reply, Reply::JournalFull)
}

// Answers the request, and stores it with its answer; where the journal is full, nothing changes.
fn hear<P: Keeper>(clerk: &mut PageClerk<P>, request: &Request) -> Result<(), AllocError>
    ensures ok { OnOk result ((one : TalkOf) × (clerk.new.talks ≡ clerk.old.talks ++ one ∷ []) ×
        (one.request ≡ request.now)) }
    ensures err { OnErr result (clerk.new.talks ≡ clerk.old.talks) }
    ensures start { clerk.new.start ≡ clerk.old.start }
{
    let request = request.copy()?;
    clerk.talks.reserve(1)?;
    let answer = clerk.core.step(&request, Work::Nothing, &mut clerk.slate);
    if says_full(&answer) {
        return Err(AllocError);
    }
    clerk.asked = asked_after(clerk.asked, &request.op);
    clerk.talks.push_reserved(Talk { request, answer });
    Ok(())
}

// What was answered is entered.
fn entered<P: Keeper>(clerk: &PageClerk<P>)
    ensures { HasEntered clerk.now.start clerk.now.core clerk.now.talks }
{
    let _talks = clerk.talks.len();
}

impl<P: Keeper> ShownDesk for PageClerk<P> {
    ghost stands = { λ c s. Reaches c.core.opening c.core.journal s };

    ghost journal = { λ c. c.core.journal };

    fn journal(&self) -> &[Entry] {
        self.core.journal()
    }

    fn activations(&self) -> Option<u64> {
        match self.core.active() {
            Some((count, _)) => Some(count),
            None => None,
        }
    }

    fn config(&self) -> Option<&Config> {
        match self.core.active() {
            Some((_, config)) => Some(config.get()),
            None => None,
        }
    }

    fn groups(&self) -> &[StorGroup] {
        match self.core.active() {
            Some((_, config)) => config.get().groups(),
            None => &[],
        }
    }

    fn volumes(&self) -> Result<VolRows, AllocError> {
        self.core.vol_rows()
    }

    fn set(&self, dsn: &Dsn) -> Option<&DataSet> {
        self.core.set(dsn)
    }

    fn set_after(&self, dsn: Option<&Dsn>) -> Option<&DataSet> {
        self.core.set_after(dsn)
    }
}

impl<P: Keeper> Pages for PageClerk<P> {
    ghost Begun = { Begun };

    ghost begun = { λ c. begun_with c.start };

    ghost shows = { ShowsPage };

    ghost refusal = { said_refusal };

    ghost begun_stays = { λ a b same. ap begun_with same };

    fn has_room(&self) -> bool {
        // A fact for the proof; nothing changes.
        entered(self);
        !self.is_nearly_full()
    }

    fn show(
        &self,
        alloc: Global,
        posts: bool,
        path: &[u8],
        body: &[u8],
    ) -> Result<Page, AllocError> {
        // A fact for the proof; nothing changes.
        entered(self);
        show_page(alloc, self, posts, path, body)
    }

    fn refuse(&self, alloc: Global, text: &mut Vec<u8>, status: u16) -> Result<(), AllocError> {
        push_said_refusal(alloc, text, status)
    }
}
