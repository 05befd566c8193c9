//! What is taken before a desk is opened.
ghost use Rattle.std.specs.Prelude.{◌≡◌, IfOk};
ghost use Rattle.page_text.specs.RefusalText.{said_refusal};

use acs_tree::Slate;
use http_head::Routes;
use http_page::Site;
use page_text::push_said_refusal;
use std::alloc::{AllocError, Global};

// The status of one that is turned away.
const TURNED_AWAY: u16 = 503;

/// The routes, the site, and what one is told that is turned away.
#[derive(Drop)]
pub struct Room {
    pub routes: Routes,
    pub site: Site,
    pub away: Vec<u8>,
}

/// Those of a desk at this port, and room for what routines write.
pub fn take_room(alloc: Global, port: u16) -> Result<(Room, Slate), AllocError>
    ensures site { IfOk result (λ taken. taken.0.site ≡ port) }
    ensures away { IfOk result (λ taken. taken.0.away.items ≡ said_refusal 503) }
{
    let routes = Routes::new(alloc)?;
    let site = Site::new(alloc, port)?;
    let slate = Slate::new(alloc)?;
    let mut away = Vec::new(alloc);
    push_said_refusal(alloc, &mut away, TURNED_AWAY)?;
    let room = Room { routes, site, away };
    Ok((room, slate))
}
