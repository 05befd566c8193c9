//! Outcomes as fields.
ghost use Rattle.std.specs.Prelude.{◌≡◌, IfOk};
ghost use Rattle.sms_simulation.specs.OutcomeText.{outcome_text};

use sms_classes::Classified;
use sms_simulation::push_outcome;
use std::alloc::{AllocError, Global};

/// The outcome of a classification, as a field.
pub fn outcome_text(alloc: Global, made: &Classified) -> Result<Vec<u8>, AllocError>
    ensures { IfOk result (λ text. text.items ≡ outcome_text made.now.stop made.now.values) }
{
    let mut text = Vec::new(alloc);
    push_outcome(&mut text, made.stop, &made.values)?;
    Ok(text)
}
