//! The verbs of commands.
ghost use Rattle.std.specs.Prelude.{◌≡◌};
ghost use Rattle.sms_script.specs.Ops.{may_ask, verb_of};

use crate::parts::is_word;

/// What a command does, as the word behind its request number says; ACTIVATE stands alone.
#[derive(Clone, Copy)]
pub enum Verb {
    Alloc,
    Extend,
    Delete,
    Release,
    Used,
    Display,
    Vary,
    Purge,
}

impl Verb {
    /// The verb of a word.
    pub fn named(word: &[u8]) -> Option<Self>
        ensures { result ≡ verb_of word.now }
    {
        if is_word(word, b"ALLOC") {
            Some(Verb::Alloc)
        } else if is_word(word, b"EXTEND") {
            Some(Verb::Extend)
        } else if is_word(word, b"DELETE") {
            Some(Verb::Delete)
        } else if is_word(word, b"RELEASE") {
            Some(Verb::Release)
        } else if is_word(word, b"USED") {
            Some(Verb::Used)
        } else if is_word(word, b"DISPLAY") || is_word(word, b"D") {
            Some(Verb::Display)
        } else if is_word(word, b"VARY") || is_word(word, b"V") {
            Some(Verb::Vary)
        } else if is_word(word, b"PURGE") {
            Some(Verb::Purge)
        } else {
            None
        }
    }

    /// Whether the administrator, or another job, may ask it.
    pub fn may_ask(self, admin: bool) -> bool
        ensures { result ≡ may_ask admin self }
    {
        match self {
            Verb::Alloc | Verb::Extend | Verb::Delete | Verb::Release | Verb::Used => !admin,
            Verb::Display => true,
            Verb::Vary | Verb::Purge => admin,
        }
    }
}
