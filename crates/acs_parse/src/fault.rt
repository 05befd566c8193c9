// Why tokens are no routine.
ghost use Rattle.std.specs.Prelude.{◌≡◌, ◌-◌};
ghost use Rattle.acs_parse.specs.Inner.Reads.{told};

use std::alloc::{AllocError, AllocFailed};
use thiserror::Error;

/// Why a list of tokens has no tree: the place of the token that shows it, counted from 0, or that
/// the tokens end too early (docs/manual/acs-language.md, Places of faults).
#[derive(Clone, Copy, Debug, PartialEq, Eq, Error)]
pub enum ParseErr {
    #[error("token {0} can't follow the tokens before it")]
    Unexpected(u32),
    #[error("the routine ends too early")]
    Ended,
    #[error("token {0} opens the 201st nesting")]
    Deep(u32),
    #[error("out of memory")]
    NoMemory,
}

/// Why reading ended. A number says how many tokens were left, the one that shows the fault among
/// them.
#[derive(Clone, Copy)]
pub enum Fault {
    Unexpected(usize),
    Ended,
    Deep(usize),
    NoMemory,
}

impl Fault {
    /// The same with the place of the token, of so many in all.
    pub fn told(self, total: u32) -> ParseErr
        ensures { result ≡ told total self }
    {
        match self {
            Fault::Unexpected(left) => ParseErr::Unexpected(place_before(total, left)),
            Fault::Ended => ParseErr::Ended,
            Fault::Deep(left) => ParseErr::Deep(place_before(total, left)),
            Fault::NoMemory => ParseErr::NoMemory,
        }
    }
}

/// The place of the token at which so many of all tokens are left.
fn place_before(total: u32, left: usize) -> u32
    ensures { result ≡ total - left }
{
    (total as usize).saturating_sub(left) as u32
}

impl From<AllocError> for Fault {
    ghost use Rattle.acs_parse.specs.declared.fault.Fault.TheVariants.{NoMemory};

    ghost from_gives = { λ _ e. e ≡ NoMemory };

    fn from(_error: AllocError) -> Fault {
        Fault::NoMemory
    }
}
