//! The reply to a fresh request, before anything is done.
ghost use Rattle.std.specs.Prelude.{◌≡◌};

use crate::deed::Deed;
use sms_construct::Reply;

/// The reply to a fresh request, and what is done with it.
#[derive(Drop)]
pub struct Decision {
    pub reply: Reply,
    pub deed: Deed,
}

impl Decision {
    /// The reply, with which nothing is done.
    pub fn quiet(reply: Reply) -> Self
        ensures { result ≡ record { reply = reply; deed = Deed.Nothing } }
    {
        Decision {
            reply,
            deed: Deed::Nothing,
        }
    }
}
