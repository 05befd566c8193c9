//! What holds of candidates as they are told.
ghost use Rattle.std.specs.Prelude.{◌≡◌, Err, List, None, Ok, Some, slice_get, true, ℕ};
ghost use Rattle.desk_law.specs.Allocation.{AllocRule, Wish, alloc_case};
ghost use Rattle.desk_law.specs.Classification.{trace_of};
ghost use Rattle.desk_law.specs.State.{DeskState};
ghost use Rattle.sms_construct.specs.declared.alloc.Alloc.{Alloc};
ghost use Rattle.sms_construct.specs.declared.reply.Reply.{Reply};
ghost use Rattle.sms_construct.specs.declared.reply.Reply.TheVariants.{NoQuantity, NoVolume};
ghost use Rattle.sms_construct.specs.declared.trace.Trace.{Trace};
ghost use Rattle.volume_lists.specs.Choice.{MayChoose};
ghost use Rattle.volume_lists.specs.Listing.{listing_of};
ghost use Rattle.volume_lists.specs.declared.lists.Listing.TheVariants.{Primary};
ghost use Rattle.volume_lists.specs.declared.view.VolView.{VolView};
ghost use Rattle.volume_lists.specs.declared.view.Want.{Want};
ghost use Rattle.volume_reasons.specs.EmptyDesk.{views_of, wanted_by};
ghost use Rattle.volume_reasons.specs.Reasons.{HoldsOf, may_be_chosen, none_is_left, reason_of};
ghost use Rattle.volume_reasons.specs.declared.reason.Reason.{Reason as ReasonOf};

/// A candidate is told as one that may be chosen exactly where the law of the desk lets it be chosen.
pub fn told_choices()
    ensures lawful { (views : List VolView) (want : Want) (position : ℕ) (view : VolView) →
        slice_get views position ≡ Some view → may_be_chosen views want view ≡ true → MayChoose views want position }
    ensures told { (views : List VolView) (want : Want) (position : ℕ) (view : VolView) →
        slice_get views position ≡ Some view → MayChoose views want position → may_be_chosen views want view ≡ true }
{}

/// Where an ALLOC comes to the choice of a volume, that there is none is told exactly where the law answers it so; and
/// where nothing is asked of the volumes for want of a quantity, the law answers that.
pub fn told_answers()
    ensures lawful { (s : DeskState) (job : List ℕ) (alloc : Alloc) (wish : Wish) (reply : Reply) (after : DeskState) →
        alloc_case s job alloc ≡ Ok wish → AllocRule s job alloc reply after →
        none_is_left (views_of s wish) (wanted_by wish) ≡ true → reply ≡ NoVolume (trace_of wish.classes) }
    ensures told { (s : DeskState) (job : List ℕ) (alloc : Alloc) (wish : Wish) (trace : Trace) (after : DeskState) →
        alloc_case s job alloc ≡ Ok wish → AllocRule s job alloc (NoVolume trace) after →
        none_is_left (views_of s wish) (wanted_by wish) ≡ true }
    ensures quantity { (s : DeskState) (job : List ℕ) (alloc : Alloc) (trace : Trace) (reply : Reply)
        (after : DeskState) → alloc_case s job alloc ≡ Err (NoQuantity trace) →
        AllocRule s job alloc reply after → reply ≡ NoQuantity trace }
{}

/// What is told as the reason why a volume doesn't stand in the primary list holds of it, and a volume without a reason
/// stands there.
pub fn told_reasons()
    ensures holds { (view : VolView) (want : Want) (reason : ReasonOf) → reason_of want view ≡ Some reason →
        HoldsOf reason view want }
    ensures primary { (view : VolView) (want : Want) → reason_of want view ≡ None → listing_of view want ≡ Primary }
{}
