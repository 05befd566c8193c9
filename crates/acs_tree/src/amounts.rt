// The numbers that a request gives.
ghost use Rattle.std.specs.Prelude.{◌≡◌, ◌↔◌, IsTrue};

/// The numbers that a request gives: the variables of these names, the sizes in KB.
#[derive(Clone, Copy, PartialEq, Eq)]
pub struct Amounts {
    pub retpd: u32,
    pub blksize: u32,
    pub size: u64,
    pub maxsize: u64,
}

impl Amounts {
    pub(crate) fn new() -> Self
        ensures { result ≡ record { retpd = 0; blksize = 0; size = 0; maxsize = 0 } }
    {
        Amounts {
            retpd: 0,
            blksize: 0,
            size: 0,
            maxsize: 0,
        }
    }

    pub(crate) fn equals(&self, other: &Self) -> bool
        ensures { IsTrue result ↔ (self.now ≡ other.now) }
    {
        self == other
    }
}
