//! The law of the desk: what it may answer, and what holds of each lawful history.
#![tactic(auto)]

mod laws;

pub use laws::{
    activations_are_counted, decks_in_order, each_entry_is_a_step, empty_is_lawful,
    floors_never_fall, held_with_a_set, held_without_a_set, kept_replies, kept_replies_stay,
    kept_rows_always, lawful_always, lawful_grants, one_state, places_in_order,
    refusals_change_nothing, repeats_change_nothing, spread_always, tables_are_lawful, to_no_other,
    tracks_add_up, was_active_once, was_active_stays,
};
