//! What the words of a command may be.
use dsn_mask::{Dsn, Name};
use sms_construct::{RequestNumber, read_number};
use sms_script::read_op;
use std::alloc::{AllocError, Global};

/// What a word behind the verb of a command is to be.
#[derive(Clone, Copy)]
pub enum Slot {
    Set,
    Tracks,
    Shown,
    Changed,
    Job,
    Floor,
    /// Any number of words: the operands of an ALLOC.
    Operands,
    /// No word.
    End,
}

impl Slot {
    /// What is wanted there, for a person.
    pub fn wanted(self) -> &'static str {
        match self {
            Slot::Set => {
                "the name of a data set: qualifiers with full stops between, each of 1 to 8 letters, digits, \
                #, @, $ and -, the first no digit and no -, at most 44 bytes in all"
            }
            Slot::Tracks => "a number of tracks, 0 to 4294967295",
            Slot::Shown => "SMS,STORGRP(group), SMS,VOLUME(volser) or SET(dsn)",
            Slot::Changed => {
                "SMS,STORGRP(group),action or SMS,VOLUME(volser),action, the action \
                ENABLE, DISABLE, DISABLE,NEW, QUIESCE or QUIESCE,NEW"
            }
            Slot::Job =>
                "the name of a job: 1 to 8 letters, digits, #, @ and $, the first no digit",
            Slot::Floor => "a request number, 1 to 4294967295",
            Slot::Operands | Slot::End => "the end of the line",
        }
    }

    /// Whether the word, in upper case, is as wanted; empty where there is none.
    pub fn fits(self, alloc: Global, word: &[u8]) -> Result<bool, AllocError> {
        match self {
            Slot::Set => Ok(Dsn::parse(word).is_ok()),
            Slot::Tracks => Ok(read_number(word).is_some()),
            Slot::Shown => is_op(alloc, b"DISPLAY ", word, false),
            Slot::Changed => is_op(alloc, b"VARY ", word, true),
            Slot::Job => Ok(Name::new(word).is_some()),
            Slot::Floor => Ok(is_request_number(word)),
            Slot::Operands => Ok(true),
            Slot::End => Ok(word.is_empty()),
        }
    }
}

/// Whether the word is a request number.
pub fn is_request_number(word: &[u8]) -> bool {
    match read_number(word) {
        Some(number) => RequestNumber::new(number).is_some(),
        None => false,
    }
}

/// Whether the word behind this front is what the administrator, or another job, may ask.
pub fn is_op(alloc: Global, front: &[u8], word: &[u8], admin: bool) -> Result<bool, AllocError> {
    let mut text = front.to_vec(alloc)?;
    text.extend_from_slice(word)?;
    Ok(read_op(alloc, text.as_mut_slice(), admin)?.is_some())
}
