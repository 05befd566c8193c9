//! What a deck means: its definitions, the configuration that it gives, and what holds of each deck
//! (docs/manual/deck.md). sms_deck reads it.
#![tactic(auto)]

mod compiled;
mod config;
mod config_parts;
mod deck_err;
mod laws;
mod limits;
mod lookups;
mod place;
mod value_form;
mod version;

pub use compiled::Compiled;
pub use config::Config;
pub use config_parts::ConfigParts;
pub use deck_err::DeckErr;
pub use laws::{first_version, keys_ascend, lawful_configurations, one_reading};
pub use limits::{
    MANAGED_CYLINDERS, MAX_BREAKPOINT, MAX_CLASSES, MAX_CYLINDERS, MAX_DECK_VOLUMES,
    MAX_GROUP_VOLUMES, MAX_GROUPS, MAX_ROUTINE, MAX_TRACKS,
};
pub use place::Place;
pub use value_form::ValueForm;
pub use version::Version;
