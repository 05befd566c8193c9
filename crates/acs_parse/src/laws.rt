// The laws of the grammar and of the places of faults.
ghost use Rattle.std.specs.Prelude.{◌≡◌, ◌<◌, ◌⊎◌, ℕ, Bool, List, take};
ghost use Rattle.acs_tree.specs.declared.routine.Routine.{Routine};
ghost use Rattle.acs_symbol.specs.declared.symbol.Symbol.{Symbol};
ghost use Rattle.acs_parse.specs.Grammar.{limited, unlimited, IsRoutine};
ghost use Rattle.acs_parse.specs.declared.fault.ParseErr.{ParseErr};
ghost use Rattle.acs_parse.specs.Places.{Begins, IsTooDeep};
ghost use Rattle.acs_parse.specs.ParseFault.{IsParseFault};

/// A list of tokens has at most one tree, however deep it may be.
pub fn one_tree()
    ensures { (may : ℕ → Bool) (ts : List Symbol) (one two : Routine) → IsRoutine may ts one → IsRoutine may ts two →
        one ≡ two }
{}

/// A list of tokens has a tree or a fault, never both, and at most one fault.
pub fn tree_or_fault()
    ensures one_fault { (ts : List Symbol) (one two : ParseErr) → IsParseFault ts one → IsParseFault ts two →
        one ≡ two }
    ensures never_both { (ts : List Symbol) (tree : Routine) (err : ParseErr)
        → IsRoutine limited ts tree → IsParseFault ts err → ⊥ }
    ensures either { (ts : List Symbol)
        → ((tree : Routine) × IsRoutine limited ts tree) ⊎ ((err : ParseErr) × IsParseFault ts err) }
{}

/// Tokens that begin some routine begin one with at most 200 constructs open at once, or a token
/// before their end opens the 201st.
pub fn limited_front()
    ensures { (ts : List Symbol) (k : ℕ) → Begins unlimited (take k ts)
        → Begins limited (take k ts) ⊎ ((j : ℕ) × (j < k) × IsTooDeep ts j) }
{}
