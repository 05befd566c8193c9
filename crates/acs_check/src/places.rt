// Where a filter list is looked for first. No clause speaks of these places: where the list isn't there, it is looked for
// among all.
ghost use Rattle.std.specs.Prelude.{◌<◌};

use acs_tree::{Form, Ident, Stmt};

// Names are told apart by a number below this.
const PLACES: usize = 128;

/// For each number by which names are told apart the place of the last filter list with such a name.
#[derive(Drop)]
pub struct Places {
    places: [usize; PLACES],
}

impl Places {
    pub fn new() -> Self {
        Places {
            places: [0; PLACES],
        }
    }

    /// Where a filter list of this name is looked for first.
    pub fn of(&self, name: &Ident) -> usize {
        self.places[number_of(name.bytes())]
    }

    /// Notes the statement at this place, where it is a filter list.
    pub fn note(&mut self, statement: &Stmt, place: usize) {
        if let Form::Filt { name, .. } = &statement.form {
            self.places[number_of(name.bytes())] = place;
        }
    }
}

fn number_of(name: &[u8]) -> usize
    ensures { result < 128 }
{
    let mut number = 0u8;
    for byte in name {
        number = number.wrapping_mul(31).wrapping_add(*byte);
    }
    (number % 128) as usize
}
