//! The space, the number of volumes and the kind of space that a new data set gets.
ghost use Rattle.std.specs.Prelude.{◌≡◌, option_and_then, option_copied, option_map};
ghost use Rattle.desk_law.specs.Allocation.{eattr_of, space_of, volume_count_of};

use sms_construct::{Alloc, DataClass, Eattr, Space, VolumeCount};

/// The space that the request names, else the one of its data class (docs/manual/rules.md, "ALLOC").
pub fn space_of(alloc: &Alloc, class: Option<&DataClass>) -> Option<Space>
    ensures { result ≡ space_of alloc.now (option_copied class.entry) }
{
    alloc.space.or(class_space(class))
}

/// The number of volumes that the request names, else the one of its data class, else 1 (docs/manual/rules.md,
/// "ALLOC").
pub fn volume_count_of(alloc: &Alloc, class: Option<&DataClass>) -> VolumeCount
    ensures { result ≡ volume_count_of alloc.now (option_copied class.entry) }
{
    alloc
        .volumes
        .or(class_volumes(class))
        .unwrap_or(VolumeCount::one())
}

/// Whether the data set may lie on cylinder-managed space: as the request says, else as its data class does, else
/// not (docs/manual/rules.md, "ALLOC").
pub fn eattr_of(alloc: &Alloc, class: Option<&DataClass>) -> Eattr
    ensures { result ≡ eattr_of alloc.now (option_copied class.entry) }
{
    alloc.eattr.or(class_eattr(class)).unwrap_or(Eattr::No)
}

fn class_space(class: Option<&DataClass>) -> Option<Space>
    ensures { result ≡ option_and_then (λ class. class.space) (option_copied class.entry) }
{
    class?.space
}

fn class_volumes(class: Option<&DataClass>) -> Option<VolumeCount>
    ensures { result ≡ option_and_then (λ class. class.volumes) (option_copied class.entry) }
{
    class?.volumes
}

fn class_eattr(class: Option<&DataClass>) -> Option<Eattr>
    ensures { result ≡ option_map (λ class. class.eattr) (option_copied class.entry) }
{
    Some(class?.eattr)
}
