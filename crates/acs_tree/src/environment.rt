// Where a routine runs.
ghost use Rattle.std.specs.Prelude.{◌≡◌, ◌↔◌, [], codes, IsTrue};

use dsn_mask::Short;

/// Where and for what a routine runs: the variables of these names.
#[derive(Clone, Copy, PartialEq, Eq)]
pub struct Environment {
    pub acsenvir: Short,
    pub xmode: Short,
    pub sysname: Short,
    pub sysplex: Short,
}

impl Environment {
    pub(crate) fn new() -> Self
        ensures { result ≡ record { acsenvir = codes "ALLOC"; xmode = codes "BATCH"; sysname = []; sysplex = [] } }
    {
        Environment {
            acsenvir: Short::new(b"ALLOC").unwrap(),
            xmode: Short::new(b"BATCH").unwrap(),
            sysname: Short::null(),
            sysplex: Short::null(),
        }
    }

    pub(crate) fn equals(&self, other: &Self) -> bool
        ensures { IsTrue result ↔ (self.now ≡ other.now) }
    {
        self == other
    }
}
