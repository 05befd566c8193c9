//! What holds of the tables that desks leave.
ghost use Rattle.std.specs.Prelude.{◌+◌, ◌≤◌, ℕ, List, Ok, Option, length};
ghost use Rattle.sms_construct.specs.declared.entry.Entry.{Entry};
ghost use Rattle.sms_keeper.specs.declared.rows.Rows.{Rows};
ghost use Rattle.sms_keeper.specs.Loading.{AreLoaded};
ghost use Rattle.sms_keeper.specs.Tables.{AreSame};
ghost use Rattle.desk_law.specs.History.{Reaches};
ghost use Rattle.desk_law.specs.Records.{IsTables, empty_opening};
ghost use Rattle.desk_law.specs.State.{DeskState, Opening};
ghost use Rattle.sms_open.specs.Own.{AreOwn, HasSoundRows};
ghost use Rattle.sms_open.specs.Reopening.{IsOpened, IsOpenedAt};
ghost use Rattle.sms_open.specs.Tests.{most_place};
ghost use Rattle.sms_open.specs.Verdicts.{IsVerdict};

/// A new desk begins with sound rows.
pub fn new_desks_are_sound()
    ensures { HasSoundRows empty_opening }
{}

/// A desk that goes on begins with sound rows.
pub fn opened_desks_are_sound()
    ensures { (told : Option Rows) (o : Opening) → IsOpened told o → HasSoundRows o }
{}

/// So does one whose entries come behind a place too.
pub fn placed_desks_are_sound()
    ensures { (place : ℕ) (told : Option Rows) (o : Opening) → IsOpenedAt place told o → HasSoundRows o }
{}

/// The tables of a desk that began with sound rows and came to no place over the greatest are its own.
pub fn left_tables_are_own()
    ensures { (o : Opening) (history : List Entry) (s : DeskState) (tables : Rows) → HasSoundRows o →
        Reaches o history s →
        IsTables o history s tables → o.base + length history ≤ most_place → AreOwn tables }
{}

/// The same tables, in any order of their keys, are a desk's own too.
pub fn same_tables_are_own()
    ensures { (tables other : Rows) → AreSame other tables → AreOwn tables → AreOwn other }
{}

/// The tables that a desk left, in the order of their keys, pass all tests, under the configuration that was active.
pub fn own_tables_pass()
    ensures { (tables rows : Rows) (own : AreOwn tables) → AreLoaded tables rows →
        IsVerdict rows (Ok own.state.active) }
{}
