// What the read-write variables hold before the first routine.
ghost use Rattle.std.specs.Prelude.{◌≡◌};
ghost use Rattle.dsn_mask.specs.Name.{IsShort};
ghost use Rattle.desk_law.specs.Classification.{begin, class_or_null};

use acs_tree::Values;
use dsn_mask::{Name, Names, Short};
use sms_construct::Alloc;

/// The classes that the request names, and no storage group.
pub fn named_classes(alloc: &Alloc) -> Values
    ensures { result ≡ (begin alloc.now).values }
{
    Values {
        dataclas: class_or_null(alloc.dataclas),
        storclas: class_or_null(alloc.storclas),
        mgmtclas: class_or_null(alloc.mgmtclas),
        groups: Names::new(),
    }
}

fn class_or_null(class: Option<Name>) -> Short
    ensures { result ≡ class_or_null class }
{
    match class {
        Some(name) => short(name.bytes()),
        None => Short::null(),
    }
}

fn short(bytes: &[u8]) -> Short
    requires { IsShort bytes.now }
    ensures { result ≡ bytes.now }
{
    Short::new(bytes).unwrap()
}
