// What the checks ask of a variable by its row of the table, if it has one (docs/manual/acs-language.md, Variables).
ghost use Rattle.std.specs.Prelude.{◌≡◌, not};
ghost use Rattle.acs_tree.specs.References.{passes, is_text_kind, is_number_kind, is_size_kind, is_counted_kind};
ghost use Rattle.acs_tree.specs.References.{is_group_list, is_misindexed_by, is_outside, is_out_of_range_by, is_later};

use crate::numbers::is_between;
use acs_tree::{Ident, Indexing, Kind, Ref, Variable, VariableKind};
use desk_common::{Boxed, are_same};

fn is_text_kind(kind: VariableKind) -> bool
    ensures { result ≡ is_text_kind kind }
{
    matches!(kind, VariableKind::Text)
}

fn is_number_kind(kind: VariableKind) -> bool
    ensures { result ≡ is_number_kind kind }
{
    matches!(kind, VariableKind::Number)
}

fn is_size_kind(kind: VariableKind) -> bool
    ensures { result ≡ is_size_kind kind }
{
    matches!(kind, VariableKind::Size)
}

fn is_counted_kind(kind: VariableKind) -> bool
    ensures { result ≡ is_counted_kind kind }
{
    is_number_kind(kind) || is_size_kind(kind)
}

pub fn is_text(row: Option<Variable>) -> bool
    ensures { result ≡ passes (λ variable. is_text_kind variable.kind) row }
{
    match row {
        None => false,
        Some(variable) => is_text_kind(variable.kind),
    }
}

pub fn is_number_variable(row: Option<Variable>) -> bool
    ensures { result ≡ passes (λ variable. is_number_kind variable.kind) row }
{
    match row {
        None => false,
        Some(variable) => is_number_kind(variable.kind),
    }
}

pub fn is_size_variable(row: Option<Variable>) -> bool
    ensures { result ≡ passes (λ variable. is_size_kind variable.kind) row }
{
    match row {
        None => false,
        Some(variable) => is_size_kind(variable.kind),
    }
}

pub fn is_counted(row: Option<Variable>) -> bool
    ensures { result ≡ passes (λ variable. is_counted_kind variable.kind) row }
{
    match row {
        None => false,
        Some(variable) => is_counted_kind(variable.kind),
    }
}

pub fn takes_masks(row: Option<Variable>) -> bool
    ensures { result ≡ passes (λ variable. not (is_counted_kind variable.kind)) row }
{
    match row {
        None => false,
        Some(variable) => !is_counted_kind(variable.kind),
    }
}

pub fn is_group_list(reference: &Ref) -> bool
    ensures { result ≡ is_group_list reference.now }
{
    are_same(reference.name.bytes(), b"STORGRP")
}

fn is_misindexed_by(indexing: Indexing, index: &Option<Boxed<Ident>>) -> bool
    ensures { result ≡ is_misindexed_by indexing index.now }
{
    match indexing {
        Indexing::Never => index.is_some(),
        Indexing::Maybe(_) => false,
        Indexing::Always(_) => index.is_none(),
    }
}

pub fn is_misindexed(row: Option<Variable>, index: &Option<Boxed<Ident>>) -> bool
    ensures { result ≡ passes (λ variable. is_misindexed_by variable.indexing index.now) row }
{
    match row {
        None => false,
        Some(variable) => is_misindexed_by(variable.indexing, index),
    }
}

fn is_outside(most: u64, index: &Option<Boxed<Ident>>) -> bool
    ensures { result ≡ is_outside most index.now }
{
    match index {
        None => false,
        Some(index) => !is_between(1, most, index.get().bytes()),
    }
}

fn is_out_of_range_by(indexing: Indexing, index: &Option<Boxed<Ident>>) -> bool
    ensures { result ≡ is_out_of_range_by indexing index.now }
{
    match indexing {
        Indexing::Never => false,
        Indexing::Maybe(most) => is_outside(most, index),
        Indexing::Always(most) => is_outside(most, index),
    }
}

pub fn is_out_of_range(row: Option<Variable>, index: &Option<Boxed<Ident>>) -> bool
    ensures { result ≡ passes (λ variable. is_out_of_range_by variable.indexing index.now) row }
{
    match row {
        None => false,
        Some(variable) => is_out_of_range_by(variable.indexing, index),
    }
}

fn is_later(kind: Kind, set_by: Option<Kind>) -> bool
    ensures { result ≡ is_later kind set_by }
{
    match set_by {
        None => false,
        Some(setter) => kind.rank() < setter.rank(),
    }
}

pub fn is_set_later(kind: Kind, row: Option<Variable>) -> bool
    ensures { result ≡ passes (λ variable. is_later kind variable.set_by) row }
{
    match row {
        None => false,
        Some(variable) => is_later(kind, variable.set_by),
    }
}
