//! The keys of a deck that name the kinds.
ghost use Rattle.std.specs.Prelude.{◌≡◌};
ghost use Rattle.sms_construct.specs.Keys.{key_of};

use acs_tree::Kind;

/// The key in a deck of the constructs of a kind, and of the routine of that kind (docs/manual/deck.md).
pub fn key_of(kind: Kind) -> &'static str
    ensures { result.now ≡ key_of kind }
{
    match kind {
        Kind::DataClas => "dataclass",
        Kind::StorClas => "storclass",
        Kind::MgmtClas => "mgmtclass",
        Kind::StorGrp => "storgroup",
    }
}
