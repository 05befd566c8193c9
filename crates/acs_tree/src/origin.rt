// Who asks.
ghost use Rattle.std.specs.Prelude.{◌≡◌, ◌↔◌, [], IsTrue};

use dsn_mask::Short;

/// Who asks for a data set, and for what work: the variables of these names.
#[derive(Clone, Copy, PartialEq, Eq)]
pub struct Origin {
    pub job: Short,
    pub user: Short,
    pub group: Short,
    pub pgm: Short,
    pub dd: Short,
    pub applic: Short,
}

impl Origin {
    pub(crate) fn new() -> Self
        ensures { result ≡ record { job = []; user = []; group = []; pgm = []; dd = []; applic = [] } }
    {
        Origin {
            job: Short::null(),
            user: Short::null(),
            group: Short::null(),
            pgm: Short::null(),
            dd: Short::null(),
            applic: Short::null(),
        }
    }

    pub(crate) fn equals(&self, other: &Self) -> bool
        ensures { IsTrue result ↔ (self.now ≡ other.now) }
    {
        self == other
    }
}
