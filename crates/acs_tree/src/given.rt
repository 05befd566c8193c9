//! What a request gives its routines.
ghost use Rattle.std.specs.Prelude.{◌≡◌, ◌↔◌, IsTrue, IfOk, option_copied, unwrap_or};
ghost use Rattle.acs_tree.specs.Inputs.{input_under, input_with, no_lists, no_texts};
ghost use Rattle.acs_tree.specs.Value.{or_null};

use crate::amounts::Amounts;
use crate::given_lists::GivenLists;
use crate::given_texts::GivenTexts;
use crate::input::Input;
use crate::seen::Seen;
use crate::seen_texts::SeenTexts;
use desk_common::Boxed;
use dsn_mask::{Dsn, Name, Short};
use std::alloc::{AllocError, Global};
use std::marker::Model;

/// What a request gives its routines. Texts and lists take memory of their own, and only where one is given.
#[derive(Drop)]
pub struct Given {
    dsn: Dsn,
    amounts: Amounts,
    texts: Option<Boxed<GivenTexts>>,
    lists: Option<Boxed<GivenLists>>,
}

impl Model for Given {
    ghost use Rattle.std.specs.Prelude.{unwrap_or};
    ghost use Rattle.acs_tree.specs.declared.input.Input.{Input};
    ghost use Rattle.acs_tree.specs.Inputs.{input_with, no_lists, no_texts};

    ghost Value = { Input };

    ghost view = { λ g. input_with g.dsn g.amounts (unwrap_or g.texts no_texts) (unwrap_or g.lists no_lists) };
}

impl Given {
    /// What a request gives that names a data set, and gives these amounts, texts and lists.
    pub fn new(
        dsn: Dsn,
        amounts: Amounts,
        texts: Option<Boxed<GivenTexts>>,
        lists: Option<Boxed<GivenLists>>,
    ) -> Self
        ensures { result ≡ input_with dsn amounts (unwrap_or texts no_texts) (unwrap_or lists no_lists) }
    {
        Given {
            dsn,
            amounts,
            texts,
            lists,
        }
    }

    /// The same as a whole input, or want of memory.
    pub fn of(alloc: Global, input: &Input) -> Result<Self, AllocError>
        ensures { IfOk result (λ given. given ≡ input.now) }
    {
        Ok(Given {
            dsn: input.dsn,
            amounts: input.amounts,
            texts: boxed_texts(alloc, texts_of(input))?,
            lists: boxed_lists(alloc, lists_of(input))?,
        })
    }

    /// The whole input.
    pub fn whole(&self) -> Input
        ensures { result ≡ self.now }
    {
        let texts = texts_or_none(&self.texts);
        let lists = lists_or_none(&self.lists);
        Input {
            dsn: self.dsn,
            origin: texts.origin,
            accounting: lists.accounting,
            attributes: texts.attributes,
            environment: texts.environment,
            defaults: texts.defaults,
            amounts: self.amounts,
            volumes: lists.volumes,
        }
    }

    /// The name of the data set.
    pub fn dsn(&self) -> &Dsn
        ensures { result.now ≡ self.now.dsn }
    {
        &self.dsn
    }

    /// The input as routines see it: that of a request of this job under a configuration with this system and
    /// sysplex, where it names them.
    pub fn under(&self, job: &Name, system: Option<Name>, sysplex: Option<Name>) -> Seen<'_>
        ensures { result ≡ input_under self.now job.now system sysplex }
    {
        let job = text_of(job);
        let sysname = text_or_null(system);
        let sysplex = text_or_null(sysplex);
        let texts = SeenTexts::new(texts_in(&self.texts), job, sysname, sysplex);
        Seen::new(&self.dsn, &self.amounts, texts, lists_in(&self.lists))
    }

    /// Whether all parts of the two are equal.
    pub fn equals(&self, other: &Self) -> bool
        ensures { IsTrue result ↔ (self.now ≡ other.now) }
    {
        self.dsn == other.dsn
            && self.amounts.equals(&other.amounts)
            && are_texts_equal(&self.texts, &other.texts)
            && are_lists_equal(&self.lists, &other.lists)
    }
}

fn texts_of(input: &Input) -> GivenTexts
    ensures { result ≡ record {
      origin = input.now.origin;
      attributes = input.now.attributes;
      environment = input.now.environment;
      defaults = input.now.defaults;
    } }
{
    GivenTexts {
        origin: input.origin,
        attributes: input.attributes,
        environment: input.environment,
        defaults: input.defaults,
    }
}

fn lists_of(input: &Input) -> GivenLists
    ensures { result ≡ record { accounting = input.now.accounting; volumes = input.now.volumes } }
{
    GivenLists {
        accounting: input.accounting,
        volumes: input.volumes,
    }
}

// The texts in memory of their own, if one is given.
fn boxed_texts(alloc: Global, texts: GivenTexts) -> Result<Option<Boxed<GivenTexts>>, AllocError>
    ensures { IfOk result (λ boxed. unwrap_or boxed no_texts ≡ texts) }
{
    if texts.equals(&GivenTexts::new()) {
        return Ok(None);
    }
    Ok(Some(Boxed::new(alloc, texts)?))
}

// The lists in memory of their own, if one is given.
fn boxed_lists(alloc: Global, lists: GivenLists) -> Result<Option<Boxed<GivenLists>>, AllocError>
    ensures { IfOk result (λ boxed. unwrap_or boxed no_lists ≡ lists) }
{
    if lists.equals(&GivenLists::new()) {
        return Ok(None);
    }
    Ok(Some(Boxed::new(alloc, lists)?))
}

fn texts_or_none(texts: &Option<Boxed<GivenTexts>>) -> GivenTexts
    ensures { result ≡ unwrap_or texts.now no_texts }
{
    match texts {
        Some(texts) => *texts.get(),
        None => GivenTexts::new(),
    }
}

fn lists_or_none(lists: &Option<Boxed<GivenLists>>) -> GivenLists
    ensures { result ≡ unwrap_or lists.now no_lists }
{
    match lists {
        Some(lists) => *lists.get(),
        None => GivenLists::new(),
    }
}

// The texts where they stand, if some are given.
fn texts_in(texts: &Option<Boxed<GivenTexts>>) -> Option<&GivenTexts>
    ensures { option_copied result ≡ texts.now }
{
    match texts {
        Some(texts) => Some(texts.get()),
        None => None,
    }
}

// The lists where they stand, if some are given.
fn lists_in(lists: &Option<Boxed<GivenLists>>) -> Option<&GivenLists>
    ensures { option_copied result ≡ lists.now }
{
    match lists {
        Some(lists) => Some(lists.get()),
        None => None,
    }
}

fn are_texts_equal(one: &Option<Boxed<GivenTexts>>, other: &Option<Boxed<GivenTexts>>) -> bool
    ensures { IsTrue result ↔ (unwrap_or one.now no_texts ≡ unwrap_or other.now no_texts) }
{
    match (one, other) {
        (None, None) => true,
        (Some(one), Some(other)) => one.get().equals(other.get()),
        (Some(texts), None) => texts.get().equals(&GivenTexts::new()),
        (None, Some(texts)) => GivenTexts::new().equals(texts.get()),
    }
}

fn are_lists_equal(one: &Option<Boxed<GivenLists>>, other: &Option<Boxed<GivenLists>>) -> bool
    ensures { IsTrue result ↔ (unwrap_or one.now no_lists ≡ unwrap_or other.now no_lists) }
{
    match (one, other) {
        (None, None) => true,
        (Some(one), Some(other)) => one.get().equals(other.get()),
        (Some(lists), None) => lists.get().equals(&GivenLists::new()),
        (None, Some(lists)) => GivenLists::new().equals(lists.get()),
    }
}

// A name as a value of routines, if there is one.
fn text_or_null(name: Option<Name>) -> Short
    ensures { result ≡ or_null name }
{
    match name {
        Some(name) => text_of(&name),
        None => Short::null(),
    }
}

// A name as a value of routines.
fn text_of(name: &Name) -> Short
    ensures { result ≡ name.now }
{
    Short::new(name.bytes()).unwrap()
}
