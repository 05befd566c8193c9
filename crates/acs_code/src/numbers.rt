//! Words that are indexes or codes.
ghost use Rattle.std.specs.Prelude.{◌≡◌};
ghost use Rattle.acs_tree.specs.Meaning.{code_from};
ghost use Rattle.acs_tree.specs.Variables.{index_of};

use acs_tree::{Ident, OperandForm, number};
use desk_common::{Boxed, MAX_EXIT_CODE};

const MAX_INDEX: u64 = 254;

// What a word stands for that is no index.
const NO_INDEX: u8 = 255;

/// The index of a variable: 0 where there is none, and 255 where it is no number from 1 to 254.
pub fn index(index: &Option<Boxed<Ident>>) -> u8
    ensures { result ≡ index_of index.now }
{
    match index {
        None => 0,
        Some(word) => match number(word.get().bytes(), 1, MAX_INDEX) {
            Some(number) => number as u8,
            None => NO_INDEX,
        },
    }
}

/// The number of a code: 0 where it is none.
pub fn code(form: &OperandForm) -> u16
    ensures { result ≡ code_from form.now }
{
    match form {
        OperandForm::Word(word) => match number(word.bytes(), 0, MAX_EXIT_CODE) {
            Some(number) => number as u16,
            None => 0,
        },
        _ => 0,
    }
}
