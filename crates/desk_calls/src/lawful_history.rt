// What holds of the legal histories behind a sound opening.
ghost use Rattle.std.specs.Prelude.{List};
ghost use Rattle.sms_construct.specs.declared.entry.Entry.{Entry};
ghost use Rattle.desk_law.specs.History.{IsLegal};
ghost use Rattle.desk_law.specs.Records.{empty_opening};
ghost use Rattle.desk_law.specs.State.{Opening};
ghost use Rattle.desk_records.specs.Tied.{IsSoundOpening};
ghost use Rattle.desk_calls.specs.Headline.{IsLawfulHistory};

use desk_law::{
    floors_never_fall, kept_replies, lawful_always, lawful_grants, places_in_order, to_no_other,
};

/// A legal history behind a sound opening is lawful in all that it grants, holds and keeps.
pub fn legal_is_lawful()
    ensures { (o : Opening) (history : List Entry) → IsSoundOpening o → IsLegal o history → IsLawfulHistory o history }
{
    // Facts for the proof; nothing runs.
    places_in_order();
    lawful_grants();
    lawful_always();
    to_no_other();
    kept_replies();
    floors_never_fall();
}

/// So is a legal history of a new desk.
pub fn new_is_lawful()
    ensures { (history : List Entry) → IsLegal empty_opening history → IsLawfulHistory empty_opening history }
{
    // A fact for the proof; nothing runs.
    legal_is_lawful();
}
