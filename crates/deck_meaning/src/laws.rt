//! What holds of each deck.
ghost use Rattle.std.specs.Prelude.{◌≡◌, ◌⊎◌, false, true, ℕ, List};
ghost use Rattle.std.specs.List.{AllByRecursion};
ghost use Rattle.toml.specs.Data.{Members, members_are_sorted};
ghost use Rattle.sms_construct.specs.Configuration.{Configuration, IsConfiguration};
ghost use Rattle.sms_construct.specs.declared.fault.Fault.{Fault as FaultOf};
ghost use Rattle.deck_meaning.specs.Reading.{Configures, HasFirstFault, MeansTable};
ghost use Rattle.deck_meaning.specs.Tables.{version_of};
ghost use Rattle.deck_meaning.specs.declared.version.Version.TheVariants.{One};

/// A deck has a configuration or a first fault, never both, and at most one of each.
pub fn one_reading()
    ensures one_configuration { (bytes : List ℕ) (one other : Configuration) → Configures bytes one →
        Configures bytes other → one ≡ other }
    ensures one_fault { (bytes : List ℕ) (one other : FaultOf) → HasFirstFault bytes one → HasFirstFault bytes other →
        one ≡ other }
    ensures never_both { (bytes : List ℕ) (config : Configuration) (fault : FaultOf) → Configures bytes config →
        HasFirstFault bytes fault → ⊥ }
    ensures either { (bytes : List ℕ) → ((config : Configuration) × Configures bytes config) ⊎
        ((fault : FaultOf) × HasFirstFault bytes fault) }
{}

/// What a deck configures is a configuration: no construct and no serial stands twice, all stand in byte order,
/// each volume has a track, a storage group of the configuration and a status other than NOTCON, and each
/// quantity and each breakpoint is in its range.
pub fn lawful_configurations()
    ensures { (bytes : List ℕ) (config : Configuration) → Configures bytes config → IsConfiguration config }
{}

/// The keys of each table of a deck ascend, so that the first of them is the first in byte order.
pub fn keys_ascend()
    ensures { (bytes : List ℕ) (top : Members) → MeansTable bytes top → members_are_sorted top ≡ true }
{}

/// In a deck of version 1 no storage class has tiers.
pub fn first_version()
    ensures { (bytes : List ℕ) (config : Configuration) (c : Configures bytes config) → version_of c.top ≡ One
        → AllByRecursion (λ class. class.multi_tier ≡ false) config.storage_classes }
{}
