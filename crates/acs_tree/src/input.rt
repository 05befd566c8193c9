// What the read-only variables hold.
ghost use Rattle.std.specs.Prelude.{◌≡◌};
ghost use Rattle.acs_tree.specs.Inputs.{bare_input, kilobytes_of};

use crate::accounting::Accounting;
use crate::amounts::Amounts;
use crate::attributes::Attributes;
use crate::defaults::Defaults;
use crate::environment::Environment;
use crate::origin::Origin;
use crate::volumes::Volumes;
use dsn_mask::Dsn;

/// The bytes that a track of a 3390 volume holds.
const TRACK_BYTES: u64 = 56_664;

const KILOBYTE: u64 = 1024;

/// What the read-only variables hold in a run (docs/manual/acs-language.md, Variables). A text that is not
/// given is empty and a number 0. `&HLQ` and `&LLQ` are parts of the name, `&NQUAL` and `&NVOL` count its
/// qualifiers and the volumes, and `&ANYVOL` and `&ALLVOL` are the volumes.
#[derive(Clone, Copy)]
pub struct Input {
    pub dsn: Dsn,
    pub origin: Origin,
    pub accounting: Accounting,
    pub attributes: Attributes,
    pub environment: Environment,
    pub defaults: Defaults,
    pub amounts: Amounts,
    pub volumes: Volumes,
}

impl Input {
    /// What a request gives that names a data set and gives nothing else.
    pub fn new(dsn: Dsn) -> Self
        ensures { result ≡ bare_input dsn }
    {
        Input {
            dsn,
            origin: Origin::new(),
            accounting: Accounting::new(),
            attributes: Attributes::new(),
            environment: Environment::new(),
            defaults: Defaults::new(),
            amounts: Amounts::new(),
            volumes: Volumes::new(),
        }
    }
}

/// So many tracks in KB, rounded up.
pub fn kilobytes_of(tracks: u32) -> u64
    ensures { result ≡ kilobytes_of tracks }
{
    (u64::from(tracks) * TRACK_BYTES).div_ceil(KILOBYTE)
}
