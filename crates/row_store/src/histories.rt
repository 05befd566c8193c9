//! What holds of every history of a prefix.
ghost use Rattle.std.specs.Prelude.{◌≤◌, ◌++◌, ◌∷◌, List};
ghost use Rattle.row_store.specs.declared.contents.Contents.{Contents};
ghost use Rattle.row_store.specs.Contents.{contents_after};
ghost use Rattle.row_store.specs.Histories.{IsHistory};
ghost use Rattle.row_store.specs.Order.{AreInOrder};
ghost use Rattle.row_store.specs.declared.transaction.Transaction.{Transaction as Made};

/// No transaction of a desk is made behind one of a desk that took the prefix later: so no two desks both make changes.
#[tactic(auto, using(crate::proofs::HistoryLemmas::behind_one))]
pub fn one_desk_at_a_time()
    ensures { (c : Contents) (before : List Made) (t : Made) (between : List Made) (u : Made) (more : List Made) →
        IsHistory c (before ++ t ∷ (between ++ u ∷ more)) → t.next.epoch ≤ u.expects.epoch }
{}

/// Rows that stand in the order of their keys do so behind each transaction; so an engine that shows its rows in that
/// order can keep what a store promises.
#[tactic(auto, using(crate::proofs::OrderLemmas::stay_in_order))]
pub fn rows_stay_in_order()
    ensures { (t : Made) (c : Contents) → AreInOrder c.rows → AreInOrder (contents_after t c).rows }
{}
