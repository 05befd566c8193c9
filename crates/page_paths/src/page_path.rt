//! What a path asks to be shown.

use crate::trial::Trial;
use dsn_mask::{Dsn, Mask, Name, Volser};

/// What a path asks to be shown.
#[derive(Drop)]
pub enum PagePath {
    /// The markup of the desk's page.
    Home,
    /// Its style sheet.
    Style,
    /// Its script.
    Script,
    /// The desk as a whole.
    Desk,
    /// Whether the desk is there.
    Health,
    /// The last entries of the journal.
    Answers,
    /// What an activation of the body would be answered.
    Check,
    /// What an ALLOC of this job and name with the body's operands would come to.
    Trial {
        shows: Trial,
        job: Name,
        dsn: Dsn,
    },
    /// The text of the active deck.
    Deck,
    /// All storage groups.
    Groups,
    /// All volumes.
    Volumes,
    /// The volume of this serial, from a track on.
    Volume {
        volser: Volser,
        from: u32,
    },
    /// Data sets whose names fit the mask, or all, behind a name, or from the first.
    Sets {
        mask: Option<Mask>,
        after: Option<Dsn>,
    },
    /// The data set of this name.
    Set(Dsn),
    /// A segment isn't as the page asks.
    Bad,
    /// There is no such page.
    Missing,
}
