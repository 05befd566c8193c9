//! The place behind which a desk goes on.
ghost use Rattle.std.specs.Prelude.{◌≡◌, max};
ghost use Rattle.desk_restoring.specs.Opened.{greatest_place};

use sms_keeper::KeptRow;

/// The greatest place of a kept reply, 0 without one. It takes no memory.
pub fn greatest_place(replies: &[KeptRow]) -> u64
    ensures { result ≡ greatest_place replies.now }
{
    let mut greatest = 0;
    for row in replies {
        greatest = later(greatest, row.place);
    }
    greatest
}

// The greater of two places.
fn later(place: u64, other: u64) -> u64
    ensures { result ≡ max place other }
{
    place.max(other)
}
