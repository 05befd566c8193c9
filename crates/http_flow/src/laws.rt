//! Laws of pages.
ghost use Rattle.std.specs.Prelude.{◌⊎◌, Bool, List, ℕ};
ghost use Rattle.http_message.specs.Conversation.{Refuses};
ghost use Rattle.http_page.specs.Pages.{AsksPage, PageAsk};

/// Where a page is asked for, the message would be refused with 404 or 405: no page hides a request of the desk
/// (docs/manual/smsd.md, "Pages").
pub fn pages_hide_nothing()
    ensures { (port : ℕ) (bytes : List ℕ) (ask : PageAsk) (closes : Bool) (after : List ℕ)
        → AsksPage port bytes ask closes after → Refuses bytes 404 ⊎ Refuses bytes 405 }
{}
