//! ACTIVATE.
ghost use Rattle.std.specs.Prelude.{◌≡◌, ◌<◌, ◌+◌, ◌^◌, IfOk, None, Result};
ghost use Rattle.sms_construct.specs.Configuration.{Configuration, IsConfiguration};
ghost use Rattle.deck_meaning.specs.declared.deck_err.DeckErr.{DeckErr as DeckError};
ghost use Rattle.desk_law.specs.State.{DeskState};
ghost use Rattle.desk_law.specs.Activation.{ActivateRule, ConfigurationRule, first_barred};
ghost use Rattle.desk_law.specs.Lawful.{IsLawful};
ghost use Rattle.desk_state.specs.Answering.{Answers};
ghost use Rattle.desk_state.specs.Deeds.{IsPossible};
ghost use Rattle.desk_state.specs.Standing.{IsRunning, IsSomeState};
ghost use Rattle.desk_state.specs.Working.{IsReadAs};

use crate::decision::Decision;
use crate::deed::Deed;
use crate::running::Running;
use crate::using::configuration;
use crate::work::Work;
use deck_meaning::{Config, DeckErr};
use desk_common::Shared;
use sms_construct::{DeckText, Reply};
use std::alloc::AllocError;

impl Running {
    /// What ACTIVATE is answered (docs/manual/rules.md, "ACTIVATE"). A deck that was read before isn't read again.
    pub(crate) fn decide_activate(
        &self,
        deck: &DeckText,
        work: &Work,
    ) -> Result<Decision, AllocError>
        requires state { IsSomeState self.now }
        requires work { (read : Result Configuration DeckError) → work.now ≡ Work.Deck read → IsReadAs deck.now read }
        requires counted { self.now.activations + 1 < 2 ^ 64 }
        ensures answers { IfOk result (λ made. (s : DeskState) → IsLawful s → IsRunning s self.now →
            Answers s self.now (ActivateRule s deck.now) made) }
        ensures possible { IfOk result (λ made. IsPossible self.now made.deed) }
    {
        match configuration(self.alloc, deck, work) {
            Ok(config) => self.decide_configuration(config),
            Err(DeckErr::Fault(fault)) => {
                let fault = Shared::new(self.alloc, fault)?;
                Ok(Decision::quiet(Reply::Deck(fault)))
            }
            Err(DeckErr::NoMemory) => Err(AllocError),
        }
    }

    // What is answered where the deck gives this configuration.
    fn decide_configuration(&self, config: Shared<Config>) -> Result<Decision, AllocError>
        requires state { IsSomeState self.now }
        requires counted { self.now.activations + 1 < 2 ^ 64 }
        ensures answers { IfOk result (λ made. (s : DeskState) → IsLawful s → IsRunning s self.now →
            Answers s self.now (ConfigurationRule s config) made) }
        ensures possible { IfOk result (λ made. IsPossible self.now made.deed) }
    {
        // Facts for the proof; nothing changes.
        is_configuration(config.get());
        match self.volumes.barred(config.get()) {
            Some(volser) => Ok(Decision::quiet(Reply::VolumeInUse(volser))),
            None => self.activation(config),
        }
    }
    // What is answered where nothing bars the configuration.
    fn activation(&self, config: Shared<Config>) -> Result<Decision, AllocError>
        requires state { IsSomeState self.now }
        requires counted { self.now.activations + 1 < 2 ^ 64 }
        requires sound { IsConfiguration config }
        ensures answers { IfOk result (λ made. (s : DeskState) → IsLawful s → IsRunning s self.now →
            first_barred s config ≡ None → Answers s self.now (ConfigurationRule s config) made) }
        ensures possible { IfOk result (λ made. IsPossible self.now made.deed) }
    {
        let volumes = self.volumes.under(self.alloc, config.get())?;
        let statuses = volumes.status_rows(self.alloc)?;
        let count = self.activations + 1;
        Ok(Decision {
            reply: Reply::Activated { count },
            deed: Deed::Become {
                count,
                config,
                volumes,
                statuses,
            },
        })
    }
}

// Tells a proof what holds of each configuration.
fn is_configuration(config: &Config)
    ensures { IsConfiguration config.now }
{
    let _deck = config.deck();
}
