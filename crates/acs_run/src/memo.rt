// What a run found out of the name of its data set.
ghost use Rattle.std.specs.Prelude.{◌≡◌, ℕ, List};
ghost use Rattle.std.specs.List.{slice_get};
ghost use Rattle.dsn_mask.specs.Filter.{FilterLists};
ghost use Rattle.acs_tree.specs.Variables.{first_qualifier};
ghost use Rattle.acs_run.specs.Inner.Memos.{Knows};
ghost use Rattle.acs_run.specs.Inner.Seen.{passes_if_any};

use crate::answers::Answers;
use crate::passing::passes;
use crate::short::{last_qualifier, qualifier};
use dsn_mask::{Dsn, FilterIndex, Short};

/// What a run found out of the name of its data set: the name and its ends as texts, and whether the name and its first
/// qualifier pass the filter lists.
#[derive(Drop)]
pub struct Memo {
    pub whole: Option<Short>,
    pub first: Option<Short>,
    pub last: Option<Short>,
    names: Answers,
    firsts: Answers,
}

impl Memo {
    /// Nothing was asked.
    pub fn new() -> Self
        ensures { (filters : List FilterLists) (dsn : List ℕ) → Knows filters dsn result }
    {
        Memo {
            whole: None,
            first: None,
            last: None,
            names: Answers::new(),
            firsts: Answers::new(),
        }
    }

    /// Makes the text of the name, if there is none yet.
    pub fn learn_whole(&mut self, dsn: &Dsn)
        ensures { (filters : List FilterLists) → Knows filters dsn.now self.old → Knows filters dsn.now self.new }
    {
        match self.whole {
            Some(_) => (),
            None => self.whole = Some(dsn.text()),
        }
    }

    /// Makes the text of the first qualifier, if there is none yet.
    pub fn learn_first(&mut self, dsn: &Dsn)
        ensures { (filters : List FilterLists) → Knows filters dsn.now self.old → Knows filters dsn.now self.new }
    {
        match self.first {
            Some(_) => (),
            None => self.first = Some(qualifier(dsn, 1)),
        }
    }

    /// Makes the text of the last qualifier, if there is none yet.
    pub fn learn_last(&mut self, dsn: &Dsn)
        ensures { (filters : List FilterLists) → Knows filters dsn.now self.old → Knows filters dsn.now self.new }
    {
        match self.last {
            Some(_) => (),
            None => self.last = Some(last_qualifier(dsn)),
        }
    }

    /// Whether the name passes the filter list at a place.
    pub fn name_passes(&mut self, filters: &[FilterIndex], place: u64, dsn: &Dsn) -> bool
        requires { Knows filters.now dsn.now self.old }
        ensures passes { result ≡ passes_if_any dsn.now (slice_get filters.now place) }
        ensures knows { Knows filters.now dsn.now self.new }
    {
        if let Some(answer) = self.names.known(place) {
            return answer;
        }
        let answer = passes(filters, place, &dsn.text());
        self.names.note(place, answer);
        answer
    }

    /// Whether the first qualifier passes the filter list at a place.
    pub fn first_passes(&mut self, filters: &[FilterIndex], place: u64, dsn: &Dsn) -> bool
        requires { Knows filters.now dsn.now self.old }
        ensures passes { result ≡ passes_if_any (first_qualifier dsn.now) (slice_get filters.now place) }
        ensures knows { Knows filters.now dsn.now self.new }
    {
        if let Some(answer) = self.firsts.known(place) {
            return answer;
        }
        let answer = passes(filters, place, &qualifier(dsn, 1));
        self.firsts.note(place, answer);
        answer
    }
}
