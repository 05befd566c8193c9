// Faults that are told one by one, while there is room.
ghost use Rattle.std.specs.Prelude.{◌≡◌, OnOk};
ghost use Rattle.deck_meaning.specs.Layout.{fault_told};
ghost use Rattle.deck_faults.specs.Survey.{alone};
ghost use Rattle.deck_faults.specs.Inner.Telling.{put, put_all};

use crate::limits::MAX_FAULTS;
use sms_construct::Fault;
use std::alloc::AllocError;

/// Tells one fault more, where there is room.
pub fn tell(told: &mut Vec<Fault>, fault: Fault) -> Result<(), AllocError>
    ensures { OnOk result (told.new.items ≡ put told.old.items fault) }
{
    if told.len() < MAX_FAULTS {
        told.push(fault)?;
    }
    Ok(())
}

/// Tells the fault with which a check ends, if it ends with one.
pub fn tell_first(told: &mut Vec<Fault>, check: Result<(), Fault>) -> Result<(), AllocError>
    ensures { OnOk result (told.new.items ≡ put_all told.old.items (alone (fault_told check))) }
{
    match check {
        Ok(()) => Ok(()),
        Err(fault) => tell(told, fault),
    }
}
