// The texts that routines see.
ghost use Rattle.std.specs.Prelude.{◌≡◌, [], option_copied, unwrap_or};
ghost use Rattle.acs_tree.specs.Inputs.{no_texts};

use crate::attributes::Attributes;
use crate::defaults::Defaults;
use crate::environment::Environment;
use crate::given_texts::GivenTexts;
use crate::input::Input;
use crate::origin::Origin;
use dsn_mask::Short;
use std::marker::Model;

/// The texts that routines see in a run: those of the request, or those that hold where none is given, but for the
/// job, the system and the sysplex. They are put together where a routine asks for them.
#[derive(Drop)]
pub struct SeenTexts<'a> {
    origin: Option<&'a Origin>,
    attributes: Option<&'a Attributes>,
    environment: Option<&'a Environment>,
    defaults: Option<&'a Defaults>,
    job: Short,
    sysname: Short,
    sysplex: Short,
    // What stands for a text that is not given.
    null: Short,
}

impl<'a> Model for SeenTexts<'a> {
    ghost use Rattle.std.specs.Prelude.{◌≡◌, [], option_copied, unwrap_or};
    ghost use Rattle.acs_tree.specs.declared.given_texts.GivenTexts.{GivenTexts};
    ghost use Rattle.acs_tree.specs.Inputs.{no_texts};

    ghost Value = { GivenTexts };

    ghost view = { λ s. record {
      origin = record (unwrap_or (option_copied s.origin) no_texts.origin) { job = s.job };
      attributes = unwrap_or (option_copied s.attributes) no_texts.attributes;
      environment = record (unwrap_or (option_copied s.environment) no_texts.environment)
          { sysname = s.sysname; sysplex = s.sysplex };
      defaults = unwrap_or (option_copied s.defaults) no_texts.defaults;
    } };

    ghost invariant = { λ s. s.null ≡ [] };
}

impl<'a> SeenTexts<'a> {
    /// The texts of a whole input.
    pub fn of(input: &'a Input) -> Self
        ensures { result ≡ record {
          origin = input.now.origin;
          attributes = input.now.attributes;
          environment = input.now.environment;
          defaults = input.now.defaults;
        } }
    {
        SeenTexts {
            origin: Some(&input.origin),
            attributes: Some(&input.attributes),
            environment: Some(&input.environment),
            defaults: Some(&input.defaults),
            job: input.origin.job,
            sysname: input.environment.sysname,
            sysplex: input.environment.sysplex,
            null: Short::null(),
        }
    }

    /// These texts, if some are given, with this job, system and sysplex.
    pub fn new(texts: Option<&'a GivenTexts>, job: Short, sysname: Short, sysplex: Short) -> Self
        ensures { let given = unwrap_or (option_copied texts.entry) no_texts in result ≡ record {
          origin = record given.origin { job = job };
          attributes = given.attributes;
          environment = record given.environment { sysname = sysname; sysplex = sysplex };
          defaults = given.defaults;
        } }
    {
        let mut seen = SeenTexts {
            origin: None,
            attributes: None,
            environment: None,
            defaults: None,
            job,
            sysname,
            sysplex,
            null: Short::null(),
        };
        if let Some(texts) = texts {
            seen.origin = Some(&texts.origin);
            seen.attributes = Some(&texts.attributes);
            seen.environment = Some(&texts.environment);
            seen.defaults = Some(&texts.defaults);
        }
        seen
    }

    pub fn origin(&self) -> Origin
        ensures { result ≡ self.now.origin }
    {
        let mut origin = match self.origin {
            Some(origin) => *origin,
            None => Origin::new(),
        };
        origin.job = self.job;
        origin
    }

    pub fn attributes(&self) -> Attributes
        ensures { result ≡ self.now.attributes }
    {
        match self.attributes {
            Some(attributes) => *attributes,
            None => Attributes::new(),
        }
    }

    pub fn environment(&self) -> Environment
        ensures { result ≡ self.now.environment }
    {
        let mut environment = match self.environment {
            Some(environment) => *environment,
            None => Environment::new(),
        };
        environment.sysname = self.sysname;
        environment.sysplex = self.sysplex;
        environment
    }

    pub fn defaults(&self) -> Defaults
        ensures { result ≡ self.now.defaults }
    {
        match self.defaults {
            Some(defaults) => *defaults,
            None => Defaults::new(),
        }
    }

    pub fn job(&self) -> &Short
        ensures { result.now ≡ self.now.origin.job }
    {
        &self.job
    }

    pub fn sysname(&self) -> &Short
        ensures { result.now ≡ self.now.environment.sysname }
    {
        &self.sysname
    }

    pub fn sysplex(&self) -> &Short
        ensures { result.now ≡ self.now.environment.sysplex }
    {
        &self.sysplex
    }

    pub fn user(&self) -> &Short
        ensures { result.now ≡ self.now.origin.user }
    {
        match self.origin {
            Some(origin) => &origin.user,
            None => &self.null,
        }
    }

    pub fn group(&self) -> &Short
        ensures { result.now ≡ self.now.origin.group }
    {
        match self.origin {
            Some(origin) => &origin.group,
            None => &self.null,
        }
    }

    pub fn pgm(&self) -> &Short
        ensures { result.now ≡ self.now.origin.pgm }
    {
        match self.origin {
            Some(origin) => &origin.pgm,
            None => &self.null,
        }
    }

    pub fn dd(&self) -> &Short
        ensures { result.now ≡ self.now.origin.dd }
    {
        match self.origin {
            Some(origin) => &origin.dd,
            None => &self.null,
        }
    }

    pub fn applic(&self) -> &Short
        ensures { result.now ≡ self.now.origin.applic }
    {
        match self.origin {
            Some(origin) => &origin.applic,
            None => &self.null,
        }
    }

    pub fn unit(&self) -> &Short
        ensures { result.now ≡ self.now.attributes.unit }
    {
        match self.attributes {
            Some(attributes) => &attributes.unit,
            None => &self.null,
        }
    }

    pub fn dsorg(&self) -> &Short
        ensures { result.now ≡ self.now.attributes.dsorg }
    {
        match self.attributes {
            Some(attributes) => &attributes.dsorg,
            None => &self.null,
        }
    }

    pub fn recorg(&self) -> &Short
        ensures { result.now ≡ self.now.attributes.recorg }
    {
        match self.attributes {
            Some(attributes) => &attributes.recorg,
            None => &self.null,
        }
    }

    pub fn dsntype(&self) -> &Short
        ensures { result.now ≡ self.now.attributes.dsntype }
    {
        match self.attributes {
            Some(attributes) => &attributes.dsntype,
            None => &self.null,
        }
    }

    pub fn dstype(&self) -> Short
        ensures { result ≡ self.now.attributes.dstype }
    {
        match self.attributes {
            Some(attributes) => attributes.dstype,
            None => Short::new(b"PERM").unwrap(),
        }
    }

    pub fn dsowner(&self) -> &Short
        ensures { result.now ≡ self.now.attributes.dsowner }
    {
        match self.attributes {
            Some(attributes) => &attributes.dsowner,
            None => &self.null,
        }
    }

    pub fn expdt(&self) -> &Short
        ensures { result.now ≡ self.now.attributes.expdt }
    {
        match self.attributes {
            Some(attributes) => &attributes.expdt,
            None => &self.null,
        }
    }

    pub fn acsenvir(&self) -> Short
        ensures { result ≡ self.now.environment.acsenvir }
    {
        match self.environment {
            Some(environment) => environment.acsenvir,
            None => Short::new(b"ALLOC").unwrap(),
        }
    }

    pub fn xmode(&self) -> Short
        ensures { result ≡ self.now.environment.xmode }
    {
        match self.environment {
            Some(environment) => environment.xmode,
            None => Short::new(b"BATCH").unwrap(),
        }
    }

    pub fn dataclas(&self) -> &Short
        ensures { result.now ≡ self.now.defaults.dataclas }
    {
        match self.defaults {
            Some(defaults) => &defaults.dataclas,
            None => &self.null,
        }
    }

    pub fn storclas(&self) -> &Short
        ensures { result.now ≡ self.now.defaults.storclas }
    {
        match self.defaults {
            Some(defaults) => &defaults.storclas,
            None => &self.null,
        }
    }

    pub fn mgmtclas(&self) -> &Short
        ensures { result.now ≡ self.now.defaults.mgmtclas }
    {
        match self.defaults {
            Some(defaults) => &defaults.mgmtclas,
            None => &self.null,
        }
    }

    pub fn null(&self) -> &Short
        ensures { result.now ≡ [] }
    {
        &self.null
    }
}
