//! A bench over a core.
ghost use Rattle.std.specs.Prelude.{◌≡◌};
ghost use Rattle.desk_http.proofs.EnteredLaws.{HasEntered-nil, HasEntered-join};
ghost use Rattle.desk_http.specs.Entered.{HasEntered};

use acs_tree::Slate;
use desk_http::CoreClerk;
use http_talk::Talks;
use serve_door::Bench;
use sms_core::Core;
use sms_keeper::Keeper;
use std::alloc::Global;
use std::marker::Model;

/// Lets one clerk after the other answer by the core.
#[derive(Drop)]
pub struct CoreBench<P: Keeper> {
    core: Core<P>,
    slate: Slate,
}

impl<P: Keeper> Model for CoreBench<P> {
    ghost use Rattle.acs_tree.specs.contracts.routine.Form as form;
    ghost use Rattle.std.specs.Coded.{codes};
    ghost use Rattle.sms_core.specs.Core.{CoreView};

    ghost Value = { CoreView P };

    ghost coded = { Prim.hlevel (codes, form.the_row.coded, P.code) };

    ghost view = { λ b. b.core };
}

impl<P: Keeper> CoreBench<P> {
    /// A bench over the core.
    pub fn new(core: Core<P>, slate: Slate) -> Self
        ensures { result ≡ core }
    {
        CoreBench { core, slate }
    }

    /// The core.
    pub fn into_core(self) -> Core<P>
        ensures { result ≡ self }
    {
        let CoreBench { core, .. } = self;
        core
    }
}

impl<P: Keeper> Bench for CoreBench<P> {
    type Sitting = CoreClerk<P>;

    ghost follows = { λ first talks last. HasEntered first last talks };

    ghost sat_at = { λ clerk. clerk.start };

    fn seat(self, alloc: Global) -> CoreClerk<P> {
        let CoreBench { core, slate } = self;
        CoreClerk::new(alloc, core, slate)
    }

    fn back(clerk: CoreClerk<P>) -> (Self, Talks) {
        let (core, slate, talks) = clerk.into_parts();
        (CoreBench { core, slate }, talks)
    }

    ghost by_start = { λ one other same. same };

    ghost stays = { HasEntered-nil };

    ghost joins = { HasEntered-join };
}
