// What the checks ask of an operand (docs/manual/acs-language.md, Kinds that suit).
ghost use Rattle.std.specs.Prelude.{◌≡◌, ◌&&◌, ◌||◌, ◌==◌, not, is_some, is_none, true, length, if◌then◌else◌};
ghost use Rattle.std.specs.Str.{bytes_eq};
ghost use Rattle.desk_common.specs.Limits.{most_exit_code, most_groups_set};
ghost use Rattle.acs_tree.specs.Numbers.{is_between, is_past_greatest, number_of, size_of};
ghost use Rattle.acs_tree.specs.FilterLists.{is_mask, is_simple_list, list_named};
ghost use Rattle.acs_tree.specs.References.{is_known, passes, is_misindexed, is_set_later, takes_masks, is_whole_name};
ghost use Rattle.acs_tree.specs.References.{is_number_variable, is_size_variable, is_group_list};
ghost use Rattle.acs_tree.specs.Suits.{is_listed, is_plain_unknown, takes_simple, token_of, is_var_with, is_word_with};
ghost use Rattle.acs_tree.specs.Suits.{is_literal_with, suits_text, suits_volumes, suits_number, suits_size};
ghost use Rattle.acs_tree.specs.Suits.{suits_kind, suits, suits_set, is_bad_literal, is_too_great, is_mask_beside};
ghost use Rattle.acs_tree.specs.Suits.{is_bad_mask, is_bad_list, is_among};
ghost use Rattle.acs_tree.specs.Variables.{variable_of};

use crate::earlier::Earlier;
use crate::item::Item;
use crate::lists::{is_mask, is_simple};
use crate::named::Named;
use crate::numbers::{is_between, is_great_number, is_great_size};
use crate::references::{
    is_group_list, is_misindexed, is_number_variable, is_set_later, is_size_variable, is_text,
    takes_masks,
};
use acs_tree::{Ident, Kind, Operand, OperandForm, Ref, VariableKind, is_number, is_size};
use desk_common::{MAX_EXIT_CODE, MAX_GROUPS_SET};
use dsn_mask::{Lit, Name};

/// The token of an operand: of a variable, the variable's.
pub fn token_of(operand: &Operand) -> u32
    ensures { result ≡ token_of operand.now }
{
    match &operand.form {
        OperandForm::Literal(_) | OperandForm::Word(_) => operand.at,
        OperandForm::Var(reference) => reference.at,
    }
}

fn suits_text(listed: bool, item: &Item<'_>) -> bool
    ensures { result ≡ suits_text listed item.now.form }
{
    match item.form() {
        OperandForm::Literal(_) | OperandForm::Word(_) => true,
        OperandForm::Var(_) => listed || is_text(item.row()),
    }
}

fn suits_volumes(listed: bool, form: &OperandForm) -> bool
    ensures { result ≡ suits_volumes listed form.now }
{
    match form {
        OperandForm::Literal(_) | OperandForm::Word(_) => true,
        OperandForm::Var(_) => listed,
    }
}

fn suits_number(item: &Item<'_>) -> bool
    ensures { result ≡ suits_number item.now.form }
{
    match item.form() {
        OperandForm::Literal(_) => false,
        OperandForm::Word(word) => is_number(word.bytes()),
        OperandForm::Var(_) => is_number_variable(item.row()),
    }
}

fn suits_size(item: &Item<'_>) -> bool
    ensures { result ≡ suits_size item.now.form }
{
    match item.form() {
        OperandForm::Literal(_) => false,
        OperandForm::Word(word) => is_size(word.bytes()),
        OperandForm::Var(_) => is_size_variable(item.row()),
    }
}

fn suits_kind(listed: bool, item: &Item<'_>, kind: VariableKind) -> bool
    ensures { result ≡ suits_kind listed item.now.form kind }
{
    match kind {
        VariableKind::Text | VariableKind::Groups => suits_text(listed, item),
        VariableKind::Volumes => suits_volumes(listed, item.form()),
        VariableKind::Number => suits_number(item),
        VariableKind::Size => suits_size(item),
    }
}

fn suits_variable(listed: bool, left: &Named<'_>, item: &Item<'_>) -> bool
    ensures { result ≡ passes (λ variable. suits_kind listed item.now.form variable.kind) (variable_of left.now.name) }
{
    match left.row() {
        None => false,
        Some(variable) => suits_kind(listed, item, variable.kind),
    }
}

fn suits(listed: bool, left: &Option<Named<'_>>, item: &Item<'_>) -> bool
    ensures { result ≡ suits listed left.now item.now.form }
{
    match left {
        None => false,
        Some(left) => suits_variable(listed, left, item),
    }
}

fn suits_set(target: &Ref, item: &Item<'_>) -> bool
    ensures { result ≡ suits_set target.now item.now.form }
{
    match item.form() {
        OperandForm::Literal(_) => true,
        OperandForm::Word(_) => false,
        OperandForm::Var(_) => !is_group_list(target) && is_text(item.row()),
    }
}

pub fn is_unknown(item: &Item<'_>) -> bool
    ensures { result ≡ is_var_with (λ ref. not (is_known ref)) item.now.form }
{
    match item.form() {
        OperandForm::Literal(_) | OperandForm::Word(_) => false,
        OperandForm::Var(_) => item.row().is_none(),
    }
}

pub fn is_unknown_indexed(item: &Item<'_>) -> bool
    ensures { result ≡ is_var_with (λ ref. not (is_known ref) && is_some ref.index) item.now.form }
{
    match item.form() {
        OperandForm::Literal(_) | OperandForm::Word(_) => false,
        OperandForm::Var(reference) => item.row().is_none() && reference.index.is_some(),
    }
}

/// Whether it names an earlier filter list.
pub fn is_listed(before: &Earlier<'_>, item: &Item<'_>) -> bool
    ensures { result ≡ is_listed before.now item.now.form }
{
    match item.form() {
        OperandForm::Literal(_) | OperandForm::Word(_) => false,
        OperandForm::Var(reference) => {
            item.row().is_none() && reference.index.is_none() && before.is_list(&reference.name)
        }
    }
}

/// Whether it is a name without an index that is no variable's.
pub fn is_plain_unknown(item: &Item<'_>) -> bool
    ensures { result ≡ is_plain_unknown item.now.form }
{
    match item.form() {
        OperandForm::Literal(_) | OperandForm::Word(_) => false,
        OperandForm::Var(reference) => item.row().is_none() && reference.index.is_none(),
    }
}

/// Whether the variable has an index that it doesn't take, or lacks one.
pub fn is_misindexed_form(item: &Item<'_>) -> bool
    ensures { result ≡ is_var_with is_misindexed item.now.form }
{
    match item.form() {
        OperandForm::Literal(_) | OperandForm::Word(_) => false,
        OperandForm::Var(reference) => is_misindexed(item.row(), &reference.index),
    }
}

/// Whether the operand, which is listed or not, may not be compared with that left side.
pub fn is_unsuited(listed: bool, left: &Option<Named<'_>>, item: &Item<'_>) -> bool
    ensures { result ≡ (not (suits listed left.now item.now.form) || is_var_with is_misindexed item.now.form) }
{
    !suits(listed, left, item) || is_misindexed_form(item)
}

/// Whether the operand may not be a value of a SET.
pub fn is_unsuited_value(target: &Ref, item: &Item<'_>) -> bool
    ensures { result ≡ (not (suits_set target.now item.now.form) || is_var_with is_misindexed item.now.form) }
{
    !suits_set(target, item) || is_misindexed_form(item)
}

pub fn is_read_early(kind: Kind, item: &Item<'_>) -> bool
    ensures { result ≡ is_var_with (is_set_later kind) item.now.form }
{
    match item.form() {
        OperandForm::Literal(_) | OperandForm::Word(_) => false,
        OperandForm::Var(_) => is_set_later(kind, item.row()),
    }
}

pub fn is_word(form: &OperandForm) -> bool
    ensures { result ≡ is_word_with (λ word. true) form.now }
{
    matches!(form, OperandForm::Word(_))
}

fn is_bad_literal(before: &[Operand], behind: &[Operand], text: &Lit) -> bool
    ensures { result ≡ is_bad_literal before.now behind.now text.now }
{
    if text.bytes().is_empty() {
        !before.is_empty() || !behind.is_empty()
    } else {
        Name::new(text.bytes()).is_none()
    }
}

/// Whether it is a literal that no SET takes.
pub fn is_bad_value(before: &[Operand], behind: &[Operand], form: &OperandForm) -> bool
    ensures { result ≡ is_literal_with (is_bad_literal before.now behind.now) form.now }
{
    match form {
        OperandForm::Literal(text) => is_bad_literal(before, behind, text),
        OperandForm::Word(_) | OperandForm::Var(_) => false,
    }
}

fn is_great_beside(left: &Named<'_>, word: &[u8]) -> bool
    ensures { result ≡ ((is_number_variable left.now && is_past_greatest (number_of word.now)) ||
        (is_size_variable left.now && is_past_greatest (size_of word.now))) }
{
    (is_number_variable(left.row()) && is_great_number(word))
        || (is_size_variable(left.row()) && is_great_size(word))
}

fn is_great_word(left: &Option<Named<'_>>, word: &[u8]) -> bool
    ensures { result ≡ is_too_great left.now word.now }
{
    match left {
        None => false,
        Some(left) => is_great_beside(left, word),
    }
}

/// Whether it is a number beside a number, or a size beside a size, that is too great.
pub fn is_too_great(left: &Option<Named<'_>>, form: &OperandForm) -> bool
    ensures { result ≡ is_word_with (is_too_great left.now) form.now }
{
    match form {
        OperandForm::Word(word) => is_great_word(left, word.bytes()),
        OperandForm::Literal(_) | OperandForm::Var(_) => false,
    }
}

fn is_mask_beside(left: &Named<'_>, word: &Ident) -> bool
    ensures { result ≡ is_mask_beside left.now word.now }
{
    if left.reference().is_whole_name() {
        is_mask(word)
    } else {
        is_simple(word)
    }
}

fn is_bad_mask(left: &Option<Named<'_>>, word: &Ident) -> bool
    ensures { result ≡ is_bad_mask left.now word.now }
{
    match left {
        None => false,
        Some(left) => takes_masks(left.row()) && !is_mask_beside(left, word),
    }
}

fn takes_simple(left: &Option<Named<'_>>) -> bool
    ensures { result ≡ takes_simple left.now }
{
    match left {
        None => false,
        Some(left) => takes_masks(left.row()) && !left.reference().is_whole_name(),
    }
}

fn is_mixed(before: &Earlier<'_>, form: &OperandForm) -> bool
    ensures { result ≡ is_var_with (λ ref. not (is_simple_list (list_named before.now ref.name))) form.now }
{
    match form {
        OperandForm::Literal(_) | OperandForm::Word(_) => false,
        OperandForm::Var(reference) => !before.is_simple_list(&reference.name),
    }
}

fn is_bad_word(left: &Option<Named<'_>>, form: &OperandForm) -> bool
    ensures { result ≡ is_word_with (is_bad_mask left.now) form.now }
{
    match form {
        OperandForm::Literal(_) | OperandForm::Var(_) => false,
        OperandForm::Word(word) => is_bad_mask(left, word),
    }
}

/// Whether it is a word that is no suitable mask, or a list with such a word.
pub fn is_misplaced(
    before: &Earlier<'_>,
    listed: bool,
    left: &Option<Named<'_>>,
    item: &Item<'_>,
) -> bool
    requires { listed ≡ is_listed before.now item.now.form }
    ensures { result ≡
        (is_word_with (is_bad_mask left.now) item.now.form || is_bad_list before.now left.now item.now.form) }
{
    is_bad_word(left, item.form())
        || (listed && takes_simple(left) && is_mixed(before, item.form()))
}

/// Whether an entry of a filter list is neither a literal nor a mask.
pub fn is_no_entry(form: &OperandForm) -> bool
    ensures { result ≡ (is_word_with (λ word. not (is_mask word)) form.now || is_var_with (λ ref. true) form.now) }
{
    match form {
        OperandForm::Literal(_) => false,
        OperandForm::Word(word) => !is_mask(word),
        OperandForm::Var(_) => true,
    }
}

fn is_same_literal(text: &Lit, form: &OperandForm) -> bool
    ensures { result ≡ is_literal_with (λ other. bytes_eq other text.now) form.now }
{
    match form {
        OperandForm::Literal(other) => other == text,
        OperandForm::Word(_) | OperandForm::Var(_) => false,
    }
}

fn is_among(operands: &[Operand], text: &Lit) -> bool
    ensures { result ≡ is_among operands.now text.now }
{
    operands
        .iter()
        .any(|operand| is_same_literal(text, &operand.form))
}

fn is_repeated(before: &[Operand], form: &OperandForm) -> bool
    ensures { result ≡ is_literal_with (is_among before.now) form.now }
{
    match form {
        OperandForm::Literal(text) => is_among(before, text),
        OperandForm::Word(_) | OperandForm::Var(_) => false,
    }
}

/// Whether it is a value too many, or a storage group that stands already before it.
pub fn is_one_too_many(target: &Ref, before: &[Operand], form: &OperandForm) -> bool
    ensures { result ≡ (if is_group_list target.now
        then length before.now == most_groups_set || is_literal_with (is_among before.now) form.now
        else length before.now == 1) }
{
    if is_group_list(target) {
        before.len() == MAX_GROUPS_SET || is_repeated(before, form)
    } else {
        before.len() == 1
    }
}

/// Whether it is an exit code: a number from 0 to 65,535.
pub fn is_exit_code(form: &OperandForm) -> bool
    ensures { result ≡ is_word_with (is_between 0 most_exit_code) form.now }
{
    match form {
        OperandForm::Word(word) => is_between(0, MAX_EXIT_CODE, word.bytes()),
        OperandForm::Literal(_) | OperandForm::Var(_) => false,
    }
}
