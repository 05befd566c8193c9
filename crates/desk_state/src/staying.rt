//! Work that waits for its step.
ghost use Rattle.std.specs.Prelude.{◌++◌, List, ℕ};
ghost use Rattle.acs_tree.specs.Slates.{SlateLines};
ghost use Rattle.sms_construct.specs.declared.alloc.Alloc.{Alloc};
ghost use Rattle.sms_construct.specs.declared.entry.Entry.{Entry};
ghost use Rattle.sms_construct.specs.declared.request.Request.{Request};
ghost use Rattle.sms_classes.specs.declared.classified.Classified.{Classified};
ghost use Rattle.desk_law.specs.State.{Opening};
ghost use Rattle.desk_state.specs.declared.work.Work.{Work};
ghost use Rattle.desk_state.specs.Working.{IsWork, WasClassified};

/// What was classified under so many activations stays so, and work may be handed in later, however long the history
/// grows.
pub fn work_stays()
    ensures classified { (o : Opening) (history more : List Entry) (under : ℕ) (job : List ℕ) (alloc : Alloc)
        (made : Classified)
        (written : SlateLines) →
        WasClassified o history under job alloc made written →
        WasClassified o (history ++ more) under job alloc made written }
    ensures work { (o : Opening) (history more : List Entry) (request : Request) (written : SlateLines) (work : Work) →
        IsWork o history request written work → IsWork o (history ++ more) request written work }
{}
