// The first fault so far, with those of one node.
ghost use Rattle.std.specs.Prelude.{◌≡◌, ◌==◌, ◌||◌, ◌&&◌, not, [], Some, if◌then◌else◌, length};
ghost use Rattle.desk_common.specs.Limits.{most_groups_set};
ghost use Rattle.acs_tree.specs.Nodes.{Head, ListName, Entry, Target, Value, Part, Left, Order, Right, Code};
ghost use Rattle.acs_tree.specs.Sound.{fault};
ghost use Rattle.acs_tree.specs.References.{is_group_list};
ghost use Rattle.acs_tree.specs.Suits.{is_order, range_token, token_if, token_of, is_bad_list, is_bad_mask, is_listed};
ghost use Rattle.acs_tree.specs.Suits.{is_plain_unknown, is_among, is_literal_with, is_word_with};
ghost use Rattle.acs_check.specs.Inner.Walk.{least, met};

use crate::check_name::CheckName;
use crate::earlier::Earlier;
use crate::first_fault::{matters, note};
use crate::item::Item;
use crate::named::Named;
use crate::operands::{
    is_bad_value, is_exit_code, is_listed, is_misindexed_form, is_misplaced, is_no_entry,
    is_one_too_many, is_plain_unknown, is_read_early, is_too_great, is_unknown, is_unknown_indexed,
    is_unsuited, is_unsuited_value, is_word, token_of,
};
use crate::references::{is_counted, is_misindexed, is_out_of_range, is_set_later};
use acs_tree::{CheckErr, Compare, Ident, Kind, Operand, OperandForm, Ref, Variable};
use desk_common::MAX_ENTRIES;

/// The first fault so far.
pub type Best = Option<CheckErr>;

pub fn head(kind: Kind, name: &Ident, at: u32, best: Best) -> Best
    ensures { result ≡ met kind [] best (Head name.now at) }
{
    note(best, CheckName::WrongHead, name.bytes() != kind.name(), at)
}

pub fn list_name(kind: Kind, before: &Earlier<'_>, name: &Ident, at: u32, best: Best) -> Best
    ensures { result ≡ met kind before.now best (ListName name.now at) }
{
    let taken = Variable::named(name).is_some() || before.is_list(name);
    note(best, CheckName::ListNameTaken, taken, at)
}

pub fn entry(kind: Kind, before: &Earlier<'_>, count: usize, entry: &Operand, best: Best) -> Best
    ensures { result ≡ met kind before.now best (Entry count entry.now) }
{
    let at = token_of(entry);
    let best = note(best, CheckName::MaskMisplaced, is_no_entry(&entry.form), at);
    note(best, CheckName::TooManyEntries, count == MAX_ENTRIES, at)
}

pub fn target(kind: Kind, before: &Earlier<'_>, target: &Ref, best: Best) -> Best
    ensures { result ≡ met kind before.now best (Target target.now) }
{
    let row = Variable::named(&target.name);
    let foreign = row.is_some() && target.name.bytes() != kind.name();
    let best = note(best, CheckName::UnknownVariable, row.is_none(), target.at);
    let best = note(best, CheckName::NotSettable, foreign, target.at);
    let best = note(
        best,
        CheckName::KindMismatch,
        is_misindexed(row, &target.index),
        target.at,
    );
    note(
        best,
        CheckName::ValueOutOfRange,
        is_out_of_range(row, &target.index),
        target.index_at,
    )
}

fn range(item: &Item<'_>, best: Best) -> Best
    ensures { result ≡ least best (fault 8 (range_token item.now.form)) }
{
    match item.form() {
        OperandForm::Literal(_) | OperandForm::Word(_) => best,
        OperandForm::Var(reference) => note(
            best,
            CheckName::ValueOutOfRange,
            is_out_of_range(item.row(), &reference.index),
            reference.index_at,
        ),
    }
}

fn value_range(bad: bool, at: u32, item: &Item<'_>, best: Best) -> Best
    ensures { result ≡ least best (fault 8 (if bad then Some at else range_token item.now.form)) }
{
    if bad {
        note(best, CheckName::ValueOutOfRange, true, at)
    } else {
        range(item, best)
    }
}

// What can't be the first fault isn't looked at: a long SET is gone through once.
fn too_many(target: &Ref, before: &[Operand], value: &Operand, best: Best) -> Best
    ensures { result ≡ least best (fault 11 (token_if
        (if is_group_list target.now
        then length before.now == most_groups_set || is_literal_with (is_among before.now) value.now.form
        else length before.now == 1)
        (token_of value.now))) }
{
    let at = token_of(value);
    if !matters(best, CheckName::TooManyValues, at) {
        return best;
    }
    let broken = is_one_too_many(target, before, &value.form);
    note(best, CheckName::TooManyValues, broken, at)
}

/// A value of a SET, the values before it, and the values behind it.
pub fn value(
    kind: Kind,
    lists: &Earlier<'_>,
    target: &Ref,
    before: &[Operand],
    value: &Operand,
    behind: &[Operand],
    best: Best,
) -> Best
    ensures { result ≡ met kind lists.now best (Value target.now before.now value.now behind.now) }
{
    let at = token_of(value);
    let item = Item::new(value);
    let best = note(best, CheckName::UnknownVariable, is_unknown(&item), at);
    let best = note(
        best,
        CheckName::KindMismatch,
        is_unsuited_value(target, &item),
        at,
    );
    let bad = is_bad_value(before, behind, &value.form);
    let best = value_range(bad, at, &item, best);
    let best = too_many(target, before, value, best);
    note(
        best,
        CheckName::ReadTooEarly,
        is_read_early(kind, &item),
        at,
    )
}

pub fn part(kind: Kind, before: &Earlier<'_>, part: &Operand, best: Best) -> Best
    ensures { result ≡ met kind before.now best (Part part.now) }
{
    let at = token_of(part);
    let item = Item::new(part);
    let unsuited = is_word(&part.form) || is_misindexed_form(&item);
    let best = note(best, CheckName::UnknownVariable, is_unknown(&item), at);
    let best = note(best, CheckName::KindMismatch, unsuited, at);
    let best = range(&item, best);
    note(
        best,
        CheckName::ReadTooEarly,
        is_read_early(kind, &item),
        at,
    )
}

pub fn left(kind: Kind, before: &Earlier<'_>, left: &Named<'_>, best: Best) -> Best
    ensures { result ≡ met kind before.now best (Left left.now) }
{
    let row = left.row();
    let reference = left.reference();
    let misindexed = is_misindexed(row, &reference.index);
    let past = is_out_of_range(row, &reference.index);
    let early = is_set_later(kind, row);
    let best = note(
        best,
        CheckName::UnknownVariable,
        row.is_none(),
        reference.at,
    );
    let best = note(best, CheckName::KindMismatch, misindexed, reference.at);
    let best = note(best, CheckName::ValueOutOfRange, past, reference.index_at);
    note(best, CheckName::ReadTooEarly, early, reference.at)
}

fn is_order(op: Compare) -> bool
    ensures { result ≡ is_order op }
{
    !matches!(op, Compare::Eq | Compare::Ne)
}

pub fn order(
    kind: Kind,
    before: &Earlier<'_>,
    left: &Named<'_>,
    op: Compare,
    at: u32,
    best: Best,
) -> Best
    ensures { result ≡ met kind before.now best (Order left.now op at) }
{
    let broken = is_order(op) && !is_counted(left.row());
    note(best, CheckName::OrderOfTexts, broken, at)
}

fn misplaced(
    before: &Earlier<'_>,
    listed: bool,
    left: &Option<Named<'_>>,
    right: &Item<'_>,
    best: Best,
) -> Best
    requires { listed ≡ is_listed before.now right.now.form }
    ensures { result ≡ least best (fault 9 (token_if
        (is_word_with (is_bad_mask left.now) right.now.form || is_bad_list before.now left.now right.now.form)
        (token_of right.now))) }
{
    let broken = is_misplaced(before, listed, left, right);
    note(
        best,
        CheckName::MaskMisplaced,
        broken,
        token_of(right.operand()),
    )
}

/// An operand and what it is compared with.
pub fn right(
    kind: Kind,
    before: &Earlier<'_>,
    left: &Option<Named<'_>>,
    right: &Operand,
    best: Best,
) -> Best
    ensures { result ≡ met kind before.now best (Right left.now right.now) }
{
    let at = token_of(right);
    let item = Item::new(right);
    let listed = is_listed(before, &item);
    let unsuited = is_unsuited(listed, left, &item);
    let best = note(
        best,
        CheckName::UnknownVariable,
        is_unknown_indexed(&item),
        at,
    );
    let best = unlisted(listed, &item, best);
    let best = note(best, CheckName::KindMismatch, unsuited, at);
    let best = value_range(is_too_great(left, &right.form), at, &item, best);
    let best = misplaced(before, listed, left, &item, best);
    note(
        best,
        CheckName::ReadTooEarly,
        is_read_early(kind, &item),
        at,
    )
}

fn unlisted(listed: bool, right: &Item<'_>, best: Best) -> Best
    ensures { result ≡ least best
        (fault 4 (token_if (is_plain_unknown right.now.form && not listed) (token_of right.now))) }
{
    let broken = is_plain_unknown(right) && !listed;
    note(
        best,
        CheckName::UnknownList,
        broken,
        token_of(right.operand()),
    )
}

pub fn code(kind: Kind, before: &Earlier<'_>, code: &Operand, best: Best) -> Best
    ensures { result ≡ met kind before.now best (Code code.now) }
{
    note(
        best,
        CheckName::BadExitCode,
        !is_exit_code(&code.form),
        token_of(code),
    )
}
