// What a run found out of the filter lists for one text.
ghost use Rattle.std.specs.Prelude.{◌≡◌, ℕ, List, IfSome};
ghost use Rattle.std.specs.List.{slice_get};
ghost use Rattle.dsn_mask.specs.Filter.{FilterLists};
ghost use Rattle.acs_run.specs.Inner.Memos.{Remembers};
ghost use Rattle.acs_run.specs.Inner.Seen.{passes_if_any};

// So many of the first filter lists are remembered.
const ROOM: usize = 256;

/// Whether a text passes the filter lists, by their places, as far as a run has asked.
#[derive(Drop)]
pub struct Answers {
    answers: [Option<bool>; ROOM],
}

impl Answers {
    /// Nothing was asked.
    pub fn new() -> Self
        ensures { (filters : List FilterLists) (text : List ℕ) → Remembers filters text result.answers }
    {
        Answers {
            answers: [None; ROOM],
        }
    }

    /// The answer, if it was asked for.
    pub fn known(&self, place: u64) -> Option<bool>
        ensures { (filters : List FilterLists) (text : List ℕ) → Remembers filters text self.now.answers →
            IfSome result (λ answer. answer ≡ passes_if_any text (slice_get filters place)) }
    {
        match self.answers.get(place as usize) {
            Some(answer) => *answer,
            None => None,
        }
    }

    /// Keeps an answer, if there is room for it.
    pub fn note(&mut self, place: u64, answer: bool)
        ensures { (filters : List FilterLists) (text : List ℕ) → Remembers filters text self.old.answers →
            answer ≡ passes_if_any text (slice_get filters place) → Remembers filters text self.new.answers }
    {
        if place < ROOM as u64 {
            self.answers[place as usize] = Some(answer);
        }
    }
}
