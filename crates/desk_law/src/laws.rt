// What holds of each legal history.
ghost use Rattle.std.specs.Prelude.{◌≡◌, ◌+◌, ◌≤◌, ◌++◌, [], ◌∷◌, ◌⊎◌, ℕ, true, false, List, Some, None, length};
ghost use Rattle.std.specs.Prelude.{nat_lt, slice_get, sum_by};
ghost use Rattle.std.specs.List.{AllByRecursion};
ghost use Rattle.sms_construct.specs.Configuration.{Configuration};
ghost use Rattle.sms_construct.specs.declared.data_set.DataSet.{DataSet};
ghost use Rattle.sms_construct.specs.declared.entry.Entry.{Entry};
ghost use Rattle.sms_construct.specs.declared.reply.Reply.TheVariants.{Granted, Below};
ghost use Rattle.sms_construct.specs.declared.trace.Trace.{Trace};
ghost use Rattle.sms_construct.specs.declared.volume.VolumeDef.{VolumeDef};
ghost use Rattle.sms_keeper.specs.declared.kept_row.KeptRow.{KeptRow};
ghost use Rattle.sms_keeper.specs.declared.rows.Rows.{Rows};
ghost use Rattle.track_ledger.specs.declared.piece.Piece.{Piece};
ghost use Rattle.track_ledger.specs.Extents.{AreAlike};
ghost use Rattle.track_ledger.specs.Gaps.{free_tracks, times_held};
ghost use Rattle.desk_law.specs.State.{DeskState, Opening, start_of, with_set, without_name};
ghost use Rattle.desk_law.specs.Extents.{extents_named, granted_on, held_on, pieces_on};
ghost use Rattle.desk_law.specs.Volumes.{free_on};
ghost use Rattle.desk_law.specs.Changes.{may_change};
ghost use Rattle.desk_law.specs.Kept.{floor_of, kept_for};
ghost use Rattle.desk_law.specs.Step.{IsFresh, IsStep, RepeatsReply, ReusesNumber};
ghost use Rattle.desk_law.specs.History.{IsLegal, Reaches, WasActive};
ghost use Rattle.desk_law.specs.Grants.{GrantsLawfully, WasGranted};
ghost use Rattle.desk_law.specs.Records.{IsTables, decks_of, empty_opening};
ghost use Rattle.desk_law.specs.Decked.{IsDecked};
ghost use Rattle.desk_law.specs.KeptRows.{AreKeptRows};
ghost use Rattle.desk_law.specs.Lawful.{IsLawful, IsLawfulOpening, IsSpread};

/// The entries of a legal history determine the state after it.
pub fn one_state()
    ensures { (o : Opening) (history : List Entry) (s t : DeskState) → Reaches o history s → Reaches o history t →
        s ≡ t }
{}

/// Each entry of a legal history is a step after those before it.
pub fn each_entry_is_a_step()
    ensures { (o : Opening) (front rest : List Entry) (entry : Entry) → IsLegal o (front ++ entry ∷ rest) →
        (s : DeskState) × (after : DeskState) × Reaches o front s × IsStep o front s entry after ×
        Reaches o (front ++ entry ∷ []) after }
{}

/// In a legal history each entry has the place at which it stands, counted on from the opening's.
pub fn places_in_order()
    ensures { (o : Opening) (front rest : List Entry) (entry : Entry) → IsLegal o (front ++ entry ∷ rest) →
        entry.answer.place ≡ o.base + length front + 1 }
{}

/// A reply that comes with no change leaves the state: refusals, repeats, what is shown, a floor, a fault of the
/// keeper.
pub fn refusals_change_nothing()
    ensures { (o : Opening) (before : List Entry) (s after : DeskState) (entry : Entry) →
        IsStep o before s entry after → may_change entry.answer.reply ≡ false → after ≡ s }
{}

/// A repeated reply leaves the state too.
pub fn repeats_change_nothing()
    ensures { (o : Opening) (before : List Entry) (s after : DeskState) (entry : Entry) →
        IsStep o before s entry after → (entry.answer.first ≡ entry.answer.place → ⊥) → after ≡ s }
{}

/// A new desk begins in a lawful state.
pub fn empty_is_lawful()
    ensures { IsLawfulOpening empty_opening }
{}

/// From a lawful opening each legal history leads to a lawful state.
pub fn lawful_always()
    ensures { (o : Opening) (history : List Entry) (s : DeskState) → IsLawfulOpening o → Reaches o history s →
        IsLawful s }
{}

/// Behind a lawful opening whose data sets lie on at most as many volumes as they may, those of each legal history do.
pub fn spread_always()
    ensures { (o : Opening) (history : List Entry) (s : DeskState) → IsLawfulOpening o →
        AllByRecursion IsSpread o.rows.sets → Reaches o history s →
        AllByRecursion IsSpread s.sets }
{}

/// In a lawful state the granted and the free tracks of each active volume are its tracks, and the free ones are those
/// that no data set holds.
pub fn tracks_add_up()
    ensures sum { (s : DeskState) (config : Configuration) (volume : VolumeDef) (position : ℕ) → IsLawful s →
        s.active ≡ Some config → slice_get config.volumes position ≡ Some volume →
        granted_on s volume.volser + free_on s volume ≡ volume.tracks }
    ensures free { (s : DeskState) (config : Configuration) (volume : VolumeDef) (position : ℕ) → IsLawful s →
        s.active ≡ Some config → slice_get config.volumes position ≡ Some volume →
        free_on s volume ≡ length (free_tracks volume.tracks (held_on s volume.volser)) }
{}

/// In a lawful state no track of a volume is held by two data sets.
pub fn to_no_other()
    ensures { (s : DeskState) (front middle rest : List DataSet) (set other : DataSet) (volser : List ℕ) (track : ℕ) →
        IsLawful s → s.sets ≡ front ++ set ∷ (middle ++ other ∷ rest) →
        times_held (pieces_on volser set.extents) track + times_held (pieces_on volser other.extents) track ≤ 1 }
{}

/// Where a data set is put in place of the one of its name, its pieces of a volume come and those of the old one go.
pub fn held_with_a_set()
    ensures counts { (s : DeskState) (set : DataSet) (volser : List ℕ) (count : Piece → ℕ) → IsLawful s →
        sum_by count (held_on (with_set s set) volser) + sum_by count (pieces_on volser (extents_named set.dsn s.sets))
        ≡ sum_by count (held_on s volser) + sum_by count (pieces_on volser set.extents) }
    ensures alike { (s : DeskState) (set : DataSet) (volser : List ℕ) → IsLawful s →
        AreAlike (held_on (with_set s set) volser ++ pieces_on volser (extents_named set.dsn s.sets))
        (held_on s volser ++ pieces_on volser set.extents) }
{}

/// Where a data set is catalogued no more, its pieces go.
pub fn held_without_a_set()
    ensures counts { (s : DeskState) (dsn volser : List ℕ) (count : Piece → ℕ) → IsLawful s →
        sum_by count (held_on (without_name s dsn) volser) + sum_by count (pieces_on volser (extents_named dsn s.sets))
        ≡ sum_by count (held_on s volser) }
    ensures alike { (s : DeskState) (dsn volser : List ℕ) → IsLawful s →
        AreAlike (held_on (without_name s dsn) volser ++ pieces_on volser (extents_named dsn s.sets))
        (held_on s volser) }
{}

/// In a legal history each grant, also a repeated one, is that of the opening or of an entry that was lawful where it
/// stands.
pub fn lawful_grants()
    ensures kept { (o : Opening) (front rest : List Entry) (entry : Entry) (set : DataSet) (trace : Trace) →
        IsLegal o (front ++ entry ∷ rest) → entry.answer.reply ≡ Granted set trace →
        WasGranted o front entry set trace }
    ensures fresh { (o : Opening) (front rest : List Entry) (entry : Entry) (set : DataSet) (trace : Trace) →
        IsLegal o (front ++ entry ∷ rest) → entry.answer.reply ≡ Granted set trace →
        kept_for o front entry.request.job entry.request.number ≡ None →
        GrantsLawfully o front entry.request set trace }
{}

/// In a legal history a number below the floor of its job is refused, a kept one gets its reply or is refused for
/// another op, and each other is fresh.
pub fn kept_replies()
    ensures below { (o : Opening) (front rest : List Entry) (entry : Entry) → IsLegal o (front ++ entry ∷ rest) →
        nat_lt entry.request.number (floor_of o front entry.request.job) ≡ true →
        entry.answer.reply ≡ Below (floor_of o front entry.request.job) }
    ensures kept { (o : Opening) (front rest : List Entry) (entry : Entry) (row : KeptRow) →
        IsLegal o (front ++ entry ∷ rest) → nat_lt entry.request.number (floor_of o front entry.request.job) ≡ false →
        kept_for o front entry.request.job entry.request.number ≡ Some row →
        RepeatsReply row entry ⊎ ReusesNumber row entry }
    ensures fresh { (o : Opening) (front rest : List Entry) (entry : Entry) → IsLegal o (front ++ entry ∷ rest) →
        nat_lt entry.request.number (floor_of o front entry.request.job) ≡ false →
        kept_for o front entry.request.job entry.request.number ≡ None →
        (s : DeskState) × (after : DeskState) × Reaches o front s × IsFresh (floor_of o front) s entry after }
{}

/// A floor never falls.
pub fn floors_never_fall()
    ensures { (o : Opening) (front more : List Entry) (job : List ℕ) →
        floor_of o front job ≤ floor_of o (front ++ more) job }
{}

/// What a history keeps for a number stays.
pub fn kept_replies_stay()
    ensures { (o : Opening) (front more : List Entry) (job : List ℕ) (number : ℕ) (row : KeptRow) →
        kept_for o front job number ≡ Some row → kept_for o (front ++ more) job number ≡ Some row }
{}

/// What was active stays so, however long the history grows.
pub fn was_active_stays()
    ensures { (o : Opening) (history more : List Entry) (count : ℕ) (config : Configuration) →
        WasActive o history count config → WasActive o (history ++ more) count config }
{}

/// After so many activations one configuration is active.
pub fn was_active_once()
    ensures { (o : Opening) (history : List Entry) (count : ℕ) (config other : Configuration) →
        WasActive o history count config → WasActive o history count other → config ≡ other }
{}

/// Where the opening's rows have places before its first entry, there were as many activations as decks that the
/// opening has and that entries activated.
pub fn activations_are_counted()
    ensures { (o : Opening) (history : List Entry) (s : DeskState) →
        AllByRecursion (λ row. row.place ≤ o.base) o.rows.replies → Reaches o history s →
        s.activations ≡ length o.rows.decks + length (decks_of history) }
{}

/// Where the opening's rows have places before its first entry and its decks are those of its activations, so are those
/// of each legal history.
pub fn decks_in_order()
    ensures { (o : Opening) (history : List Entry) (s : DeskState) →
        AllByRecursion (λ row. row.place ≤ o.base) o.rows.replies →
        IsDecked o.rows.decks (start_of o) → Reaches o history s → IsDecked (o.rows.decks ++ decks_of history) s }
{}

/// Where the opening's rows are kept ones, so are those of the tables of each legal history.
pub fn kept_rows_always()
    ensures { (o : Opening) (history : List Entry) (s : DeskState) (rows : Rows) → AreKeptRows o.base o.rows.replies →
        Reaches o history s →
        IsTables o history s rows → AreKeptRows (o.base + length history) rows.replies }
{}

/// The tables of a legal history, in any order of their keys, are rows from which a desk may go on in a lawful way.
pub fn tables_are_lawful()
    ensures { (o : Opening) (history : List Entry) (s : DeskState) (rows : Rows) (base : ℕ) → IsLawfulOpening o →
        Reaches o history s →
        IsTables o history s rows → IsLawfulOpening (record { rows = rows; config = s.active; base = base }) }
{}
