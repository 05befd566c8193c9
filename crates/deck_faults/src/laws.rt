//! What holds of the faults of each deck.
ghost use Rattle.std.specs.Prelude.{◌≡◌, ◌↔◌, ℕ, List, [], Some};
ghost use Rattle.sms_construct.specs.Configuration.{Configuration};
ghost use Rattle.sms_construct.specs.declared.fault.Fault.{Fault as FaultOf};
ghost use Rattle.deck_meaning.specs.Reading.{Configures, HasFirstFault};
ghost use Rattle.deck_faults.specs.Faults.{HasFaults, first_in};

/// Each deck has a list of faults, and only one.
pub fn one_list()
    ensures some { (bytes : List ℕ) → (faults : List FaultOf) × HasFaults bytes faults }
    ensures one { (bytes : List ℕ) (one other : List FaultOf) → HasFaults bytes one → HasFaults bytes other →
        one ≡ other }
{}

/// The first of a deck's faults is the one with which the deck is refused.
pub fn first_is_validated()
    ensures { (bytes : List ℕ) (faults : List FaultOf) (fault : FaultOf) → HasFaults bytes faults →
        HasFirstFault bytes fault → first_in faults ≡ Some fault }
{}

/// A deck has no faults just where it is a configuration.
pub fn none_where_valid()
    ensures { (bytes : List ℕ) (faults : List FaultOf) → HasFaults bytes faults →
        (faults ≡ []) ↔ ((config : Configuration) × Configures bytes config) }
{}
