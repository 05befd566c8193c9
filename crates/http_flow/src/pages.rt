//! Clerks that show pages.
ghost use Rattle.std.specs.Prelude.{◌≡◌, ◌≤◌, ◌<◌, ◌++◌, IfOk, List, OnErr, OnOk, ℕ};
ghost use Rattle.http_page.specs.Pages.{PageAsk};
ghost use Rattle.http_talk.specs.declared.talk.Talk.{Talk as TalkOf};
ghost use Rattle.http_flow.specs.Exchange.{Basis};
ghost use Rattle.http_flow.specs.declared.page.Page.{Page as PageOf};

use crate::page::Page;
use http_talk::Clerk;
use std::alloc::{AllocError, Global};

/// A clerk that shows pages of what it answered so far, says whether it has room for more, and has the words of
/// refusals.
pub trait Pages: Clerk {
    /// What pages rest on beside the talks.
    ghost Begun: { Type 0 };

    /// What pages rest on of what the clerk began with, and for which talks it has room.
    ghost begun: { Self → Basis Begun };

    /// Such a page may be shown for what is asked, where pages rest on this, behind these talks.
    ghost shows: { Basis Begun → List TalkOf → PageAsk → PageOf → Type 0 };

    /// The bytes of a refusal with this status.
    ghost refusal: { ℕ → List ℕ };

    /// Whether it has room for one more question. Where it has none it is asked nothing.
    fn has_room(&self) -> bool
        ensures { result ≡ (begun self.now).has_room (Self.talks self.now) };

    /// The page at this path, with this body if it is asked by POST. Nothing changes.
    fn show(&self, alloc: Global, posts: bool, path: &[u8], body: &[u8]) -> Result<Page, AllocError>
        ensures { IfOk result (λ page. shows (begun self.now) (Self.talks self.now)
            (record { posts = posts; path = path.now; body = body.now }) page) };

    /// Puts the bytes of a refusal behind others, or leaves those as they are where memory is wanting.
    fn refuse(&self, alloc: Global, text: &mut Vec<u8>, status: u16) -> Result<(), AllocError>
        requires { (100 ≤ status) × (status < 1000) }
        ensures ok { OnOk result (text.new.items ≡ text.old.items ++ refusal status) }
        ensures err { OnErr result (text.new.items ≡ text.old.items) };

    /// It stays while what the clerk began with stays.
    ghost begun_stays: { (a b : Self) → Self.Clerk.start a ≡ Self.Clerk.start b → begun a ≡ begun b };
}
