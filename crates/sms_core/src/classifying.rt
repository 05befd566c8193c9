//! The classification of a request.
ghost use Rattle.std.specs.Prelude.{◌≡◌};
ghost use Rattle.sms_construct.specs.declared.alloc.Alloc.{Alloc as Allocation};
ghost use Rattle.desk_law.specs.Classification.{classes_of};

use acs_tree::Slate;
use deck_meaning::Config;
use sms_classes::Classified;
use sms_construct::{Op, Request};

/// What the routines of a configuration give the new data set of a request whose op is an ALLOC (docs/manual/rules.md,
/// "Classification"). It takes no memory. What was on the slate is gone; what the routines wrote is on it
/// afterwards.
pub fn classify(config: &Config, request: &Request, slate: &mut Slate) -> Classified
    requires { (alloc : Allocation) × (request.now.op ≡ Op.Alloc alloc) }
    ensures values { (alloc : Allocation) → request.now.op ≡ Op.Alloc alloc →
        result.values ≡ (classes_of config.now request.now.job alloc).values }
    ensures stop { (alloc : Allocation) → request.now.op ≡ Op.Alloc alloc →
        result.stop ≡ (classes_of config.now request.now.job alloc).stop }
    ensures slate { (alloc : Allocation) → request.now.op ≡ Op.Alloc alloc →
        slate.new ≡ (classes_of config.now request.now.job alloc).written }
{
    let Op::Alloc(alloc) = &request.op else {
        unreachable!();
    };
    sms_classes::classify(config, &request.job, alloc.get(), slate)
}
