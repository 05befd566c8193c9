//! What routines see.
ghost use Rattle.std.specs.Prelude.{◌≡◌, unwrap_or, option_copied};
ghost use Rattle.acs_tree.specs.Inputs.{input_with, no_lists};

use crate::amounts::Amounts;
use crate::attributes::Attributes;
use crate::defaults::Defaults;
use crate::environment::Environment;
use crate::given_lists::GivenLists;
use crate::input::Input;
use crate::origin::Origin;
use crate::seen_texts::SeenTexts;
use dsn_mask::{Dsn, Short, Volser};
use std::marker::Model;

/// What routines see in a run. The name, the amounts and the lists are the request's.
#[derive(Drop)]
pub struct Seen<'a> {
    dsn: &'a Dsn,
    amounts: &'a Amounts,
    texts: SeenTexts<'a>,
    acct_job: &'a [Short],
    acct_step: &'a [Short],
    volumes: &'a [Volser],
}

impl<'a> Model for Seen<'a> {
    ghost use Rattle.acs_tree.specs.declared.input.Input.{Input};
    ghost use Rattle.acs_tree.specs.Inputs.{input_with};

    ghost Value = { Input };

    ghost view = { λ s. input_with s.dsn.now s.amounts.now s.texts (record {
      accounting = record { acct_job = s.acct_job.now; acct_step = s.acct_step.now };
      volumes = s.volumes.now;
    }) };
}

impl<'a> Seen<'a> {
    /// What routines see of a whole input.
    pub fn of(input: &'a Input) -> Self
        ensures { result ≡ input.now }
    {
        Seen {
            dsn: &input.dsn,
            amounts: &input.amounts,
            texts: SeenTexts::of(input),
            acct_job: input.accounting.acct_job.as_slice(),
            acct_step: input.accounting.acct_step.as_slice(),
            volumes: input.volumes.as_slice(),
        }
    }

    // The same in parts, with the lists of the request if it gives some.
    pub(crate) fn new(
        dsn: &'a Dsn,
        amounts: &'a Amounts,
        texts: SeenTexts<'a>,
        lists: Option<&'a GivenLists>,
    ) -> Self
        ensures { result ≡ input_with dsn.now amounts.now texts.entry (unwrap_or (option_copied lists.entry) no_lists) }
    {
        let mut seen = Seen {
            dsn,
            amounts,
            texts,
            acct_job: &[],
            acct_step: &[],
            volumes: &[],
        };
        if let Some(lists) = lists {
            seen.acct_job = lists.accounting.acct_job.as_slice();
            seen.acct_step = lists.accounting.acct_step.as_slice();
            seen.volumes = lists.volumes.as_slice();
        }
        seen
    }

    /// The name of the data set.
    pub fn dsn(&self) -> &Dsn
        ensures { result.now ≡ self.now.dsn }
    {
        self.dsn
    }

    /// The numbers that the request gives, the sizes in KB.
    pub fn amounts(&self) -> &Amounts
        ensures { result.now ≡ self.now.amounts }
    {
        self.amounts
    }

    /// Who asks for the data set. The value, of 270 bytes, is put together at each call.
    pub fn origin(&self) -> Origin
        ensures { result ≡ self.now.origin }
    {
        self.texts.origin()
    }

    /// What the data set is to be. The value, of 315 bytes, is put together at each call.
    pub fn attributes(&self) -> Attributes
        ensures { result ≡ self.now.attributes }
    {
        self.texts.attributes()
    }

    /// Where and for what the routine runs. The value, of 180 bytes, is put together at each call.
    pub fn environment(&self) -> Environment
        ensures { result ≡ self.now.environment }
    {
        self.texts.environment()
    }

    /// The classes that the request names as defaults. The value, of 135 bytes, is put together at each call.
    pub fn defaults(&self) -> Defaults
        ensures { result ≡ self.now.defaults }
    {
        self.texts.defaults()
    }

    /// The accounting of the job, 0 to 8 texts.
    pub fn acct_job(&self) -> &[Short]
        ensures { result.now ≡ self.now.accounting.acct_job }
    {
        self.acct_job
    }

    /// The accounting of the step, 0 to 8 texts.
    pub fn acct_step(&self) -> &[Short]
        ensures { result.now ≡ self.now.accounting.acct_step }
    {
        self.acct_step
    }

    /// The serials of the volumes that the request names, 0 to 59.
    pub fn volumes(&self) -> &[Volser]
        ensures { result.now ≡ self.now.volumes }
    {
        self.volumes
    }

    /// The texts, each of which can be read alone.
    pub fn texts(&self) -> &SeenTexts<'a>
        ensures { result.now ≡ record {
          origin = self.now.origin;
          attributes = self.now.attributes;
          environment = self.now.environment;
          defaults = self.now.defaults;
        } }
    {
        &self.texts
    }
}
