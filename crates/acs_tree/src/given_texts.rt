// The texts that a request gives.
ghost use Rattle.std.specs.Prelude.{◌≡◌, ◌↔◌, IsTrue};
ghost use Rattle.acs_tree.specs.Inputs.{no_texts};

use crate::attributes::Attributes;
use crate::defaults::Defaults;
use crate::environment::Environment;
use crate::origin::Origin;

/// What a request gives in texts, beside its name and its lists.
#[derive(Clone, Copy)]
pub struct GivenTexts {
    pub origin: Origin,
    pub attributes: Attributes,
    pub environment: Environment,
    pub defaults: Defaults,
}

impl GivenTexts {
    /// What holds where none is given.
    pub fn new() -> Self
        ensures { result ≡ no_texts }
    {
        GivenTexts {
            origin: Origin::new(),
            attributes: Attributes::new(),
            environment: Environment::new(),
            defaults: Defaults::new(),
        }
    }

    pub(crate) fn equals(&self, other: &Self) -> bool
        ensures { IsTrue result ↔ (self.now ≡ other.now) }
    {
        self.origin.equals(&other.origin)
            && self.attributes.equals(&other.attributes)
            && self.environment.equals(&other.environment)
            && self.defaults.equals(&other.defaults)
    }
}
