// Why the tables of a database aren't read.
ghost use Rattle.std.specs.Prelude.{◌≡◌};
ghost use Rattle.sms_sqlite.specs.declared.load_fault.LoadFault.TheVariants.{NoMemory, Refused};

use sms_keeper::Table;
use sqlite::Error;
use std::alloc::AllocError;

// Why the tables of a database aren't read.
pub enum LoadFault {
    // The database refused a statement.
    Refused(Error),
    // This row of the table stands for nothing: its place in the order of the keys, from 0.
    Damaged(Table, u64),
    // Memory was wanting.
    NoMemory,
}

impl From<Error> for LoadFault {
    ghost from_gives = { λ error fault. fault ≡ Refused error };

    fn from(error: Error) -> LoadFault {
        LoadFault::Refused(error)
    }
}

impl From<AllocError> for LoadFault {
    ghost from_gives = { λ error fault. fault ≡ NoMemory };

    fn from(_error: AllocError) -> LoadFault {
        LoadFault::NoMemory
    }
}
