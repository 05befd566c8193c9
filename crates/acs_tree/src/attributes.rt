// What a data set is to be.
ghost use Rattle.std.specs.Prelude.{◌≡◌, ◌↔◌, [], codes, IsTrue};

use dsn_mask::Short;

/// What a data set is to be: the variables of these names.
#[derive(Clone, Copy, PartialEq, Eq)]
pub struct Attributes {
    pub unit: Short,
    pub dsorg: Short,
    pub recorg: Short,
    pub dsntype: Short,
    pub dstype: Short,
    pub dsowner: Short,
    pub expdt: Short,
}

impl Attributes {
    pub(crate) fn new() -> Self
        ensures { result ≡ record {
          unit = [];
          dsorg = [];
          recorg = [];
          dsntype = [];
          dstype = codes "PERM";
          dsowner = [];
          expdt = [];
        } }
    {
        Attributes {
            unit: Short::null(),
            dsorg: Short::null(),
            recorg: Short::null(),
            dsntype: Short::null(),
            dstype: Short::new(b"PERM").unwrap(),
            dsowner: Short::null(),
            expdt: Short::null(),
        }
    }

    pub(crate) fn equals(&self, other: &Self) -> bool
        ensures { IsTrue result ↔ (self.now ≡ other.now) }
    {
        self == other
    }
}
