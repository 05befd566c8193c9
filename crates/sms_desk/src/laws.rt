//! What holds of what seats hold.
ghost use Rattle.std.specs.Prelude.{◌≡◌, ◌≤◌, ◌<◌, List, Option, Some};
ghost use Rattle.std.specs.List.{AllByRecursion};
ghost use Rattle.sms_construct.specs.declared.entry.Entry.{Entry};
ghost use Rattle.desk_law.specs.State.{DeskState, Opening, start_of};
ghost use Rattle.desk_law.specs.History.{Reaches};
ghost use Rattle.desk_law.specs.Decked.{IsDecked};
ghost use Rattle.sms_desk.specs.declared.held.Held.{Held as HeldBy};
ghost use Rattle.sms_desk.specs.Holding.{IsCurrent, IsHolding, held_count};

/// Where the opening's rows have places before its first entry and its decks are those of its activations, a seat that
/// holds what is active holds it under as many activations as there were, under 0 where nothing is active; and what a
/// seat holds is held under one activation at least.
pub fn activations_are_held()
    ensures current { (o : Opening) (history : List Entry) (s : DeskState) (held : Option HeldBy) →
        AllByRecursion (λ row. row.place ≤ o.base) o.rows.replies →
        IsDecked o.rows.decks (start_of o) → Reaches o history s → IsCurrent o history held →
        held_count held ≡ s.activations }
    ensures some { (o : Opening) (history : List Entry) (held : HeldBy) →
        AllByRecursion (λ row. row.place ≤ o.base) o.rows.replies →
        IsDecked o.rows.decks (start_of o) → IsHolding o history (Some held) → 0 < held.count }
{}
