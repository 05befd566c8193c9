// What a class holds, as words and numbers.
ghost use Rattle.std.specs.Prelude.{◌≡◌};
ghost use Rattle.page_text.specs.PageBodies.{eattr_text, unit_text};
ghost use Rattle.store_report.specs.ClassTable.{primary_of, secondary_of};

use sms_construct::{Eattr, Space, Unit, VolumeCount};

/// The primary quantity of a space, in its unit.
pub fn primary_of(space: &Option<Space>) -> Option<u32>
    ensures { result ≡ primary_of space.now }
{
    match space {
        Some(space) => Some(space.primary()),
        None => None,
    }
}

/// The secondary quantity of a space, in its unit.
pub fn secondary_of(space: &Option<Space>) -> Option<u32>
    ensures { result ≡ secondary_of space.now }
{
    match space {
        Some(space) => Some(space.secondary()),
        None => None,
    }
}

/// A number of volumes.
pub fn count_of(volumes: &Option<VolumeCount>) -> Option<u32>
    ensures { result ≡ volumes.now }
{
    match volumes {
        Some(count) => Some(u32::from(count.get())),
        None => None,
    }
}

/// The word of a unit.
pub fn unit_bytes(unit: Unit) -> &'static [u8]
    ensures { result.now ≡ unit_text unit }
{
    match unit {
        Unit::Trk => b"TRK",
        Unit::Cyl => b"CYL",
    }
}

/// The word of an attribute.
pub fn eattr_bytes(eattr: Eattr) -> &'static [u8]
    ensures { result.now ≡ eattr_text eattr }
{
    match eattr {
        Eattr::No => b"NO",
        Eattr::Opt => b"OPT",
    }
}
