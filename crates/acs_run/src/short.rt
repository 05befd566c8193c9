// Names, volume serials and qualifiers as values.
ghost use Rattle.std.specs.Prelude.{◌≡◌};
ghost use Rattle.dsn_mask.specs.Name.{IsShort};
ghost use Rattle.dsn_mask.specs.Qualifiers.{qualifiers_of};
ghost use Rattle.acs_tree.specs.Value.{text_at};
ghost use Rattle.acs_tree.specs.Variables.{last_qualifier};

use dsn_mask::{Dsn, Name, Short, Volser};

fn short(bytes: &[u8]) -> Short
    requires { IsShort bytes.now }
    ensures { result ≡ bytes.now }
{
    Short::new(bytes).unwrap()
}

pub fn of_name(name: &Name) -> Short
    ensures { result ≡ name.now }
{
    short(name.bytes())
}

pub fn of_volser(volser: &Volser) -> Short
    ensures { result ≡ volser.now }
{
    short(volser.bytes())
}

/// The qualifier of that number, counted from 1, or null.
pub fn qualifier(dsn: &Dsn, number: usize) -> Short
    ensures { result ≡ text_at (qualifiers_of dsn.now) number }
{
    // A fact for the proof; nothing changes.
    let _form = dsn.bytes();
    match dsn.qualifier(number) {
        None => Short::null(),
        Some(bytes) => short(bytes),
    }
}

/// The last qualifier.
pub fn last_qualifier(dsn: &Dsn) -> Short
    ensures { result ≡ last_qualifier dsn.now }
{
    qualifier(dsn, dsn.count())
}
