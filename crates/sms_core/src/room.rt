// Room for one more entry.
ghost use Rattle.std.specs.Prelude.{◌≡◌, ◌<◌, OnOk, vec_capacity, vec_len};
ghost use Rattle.desk_records.specs.Logged.{SameLog};

use desk_records::Records;
use sms_construct::Entry;
use sms_keeper::Keeper;
use std::alloc::AllocError;

/// Takes room for one more entry in the journal, and for its reply and its floor in the log. Nothing else changes,
/// also where memory is wanting.
pub fn take_room<P: Keeper>(
    journal: &mut Vec<Entry>,
    records: &mut Records<P>,
) -> Result<(), AllocError>
    ensures place { OnOk result (vec_len journal.new < vec_capacity journal.new) }
    ensures reply_room { OnOk result (0 < records.new.log.reply_room) }
    ensures floor_room { OnOk result (0 < records.new.log.floor_room) }
    ensures entries { journal.new.items ≡ journal.old.items }
    ensures log { SameLog records.old.log records.new.log }
    ensures keeper { records.new.keeper ≡ records.old.keeper }
{
    journal.reserve(1)?;
    records.reserve()
}
