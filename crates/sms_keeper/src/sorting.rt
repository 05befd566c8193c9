//! Tables in the order of their keys.
ghost use Rattle.std.specs.Prelude.{◌≡◌, ℕ, List, IsSorted, OnOk, filter};
ghost use Rattle.sms_construct.specs.declared.target.Target.{Target as TargetModel};
ghost use Rattle.sms_keeper.specs.Loading.{by_count, by_job, by_name, by_request, by_target, target_cmp, target_name};
ghost use Rattle.sms_keeper.specs.Loading.{target_rank};
ghost use Rattle.sms_keeper.specs.Tables.{is_deck, is_floor_of, is_named, is_reply_of, is_status_of};

use crate::deck_row::DeckRow;
use crate::floor::Floor;
use crate::kept_row::KeptRow;
use crate::status_row::StatusRow;
use desk_common::Shared;
use sms_construct::{DataSet, Target};
use std::alloc::AllocError;
use std::cmp::Ordering;

/// Sorts data sets by name.
pub fn sort_sets(sets: &mut Vec<Shared<DataSet>>) -> Result<(), AllocError>
    ensures same { (dsn : List ℕ) → filter (is_named dsn) sets.new.items ≡ filter (is_named dsn) sets.old.items }
    ensures ordered { OnOk result (IsSorted by_name sets.new.items) }
{
    sets.sort_by(|one, other| compare_sets(one, other))
}

fn compare_sets(one: &Shared<DataSet>, other: &Shared<DataSet>) -> Ordering
    ensures { result ≡ by_name one.now other.now }
{
    one.get().dsn.cmp(&other.get().dsn)
}

/// Sorts kept replies by job, and then by number.
pub fn sort_replies(replies: &mut Vec<KeptRow>) -> Result<(), AllocError>
    ensures same { (job : List ℕ) (number : ℕ) →
        filter (is_reply_of job number) replies.new.items ≡ filter (is_reply_of job number) replies.old.items }
    ensures ordered { OnOk result (IsSorted by_request replies.new.items) }
{
    replies.sort_by(|one, other| compare_replies(one, other))
}

fn compare_replies(one: &KeptRow, other: &KeptRow) -> Ordering
    ensures { result ≡ by_request one.now other.now }
{
    match one.job.cmp(&other.job) {
        Ordering::Equal => one.number.get().cmp(&other.number.get()),
        order => order,
    }
}

/// Sorts decks by number.
pub fn sort_decks(decks: &mut Vec<DeckRow>) -> Result<(), AllocError>
    ensures same { (count : ℕ) → filter (is_deck count) decks.new.items ≡ filter (is_deck count) decks.old.items }
    ensures ordered { OnOk result (IsSorted by_count decks.new.items) }
{
    decks.sort_by(|one, other| one.count.cmp(&other.count))
}

fn target_rank(target: &Target) -> u8
    ensures { result ≡ target_rank target.now }
{
    match target {
        Target::Group(_) => 0,
        Target::Volume(_) => 1,
        Target::Set(_) => 2,
    }
}

fn target_name(target: &Target) -> &[u8]
    ensures { result.now ≡ target_name target.now }
{
    match target {
        Target::Group(group) => group.bytes(),
        Target::Volume(volser) => volser.bytes(),
        Target::Set(dsn) => dsn.bytes(),
    }
}

fn compare_targets(one: &Target, other: &Target) -> Ordering
    ensures { result ≡ target_cmp one.now other.now }
{
    match target_rank(one).cmp(&target_rank(other)) {
        Ordering::Equal => target_name(one).cmp(target_name(other)),
        order => order,
    }
}

/// Sorts statuses by target: storage groups before volumes, each by name.
pub fn sort_statuses(statuses: &mut Vec<StatusRow>) -> Result<(), AllocError>
    ensures same { (target : TargetModel) →
        filter (is_status_of target) statuses.new.items ≡ filter (is_status_of target) statuses.old.items }
    ensures ordered { OnOk result (IsSorted by_target statuses.new.items) }
{
    statuses.sort_by(|one, other| compare_targets(&one.target, &other.target))
}

/// Sorts floors by job.
pub fn sort_floors(floors: &mut Vec<Floor>) -> Result<(), AllocError>
    ensures same { (job : List ℕ) →
        filter (is_floor_of job) floors.new.items ≡ filter (is_floor_of job) floors.old.items }
    ensures ordered { OnOk result (IsSorted by_job floors.new.items) }
{
    floors.sort_by(|one, other| one.job.cmp(&other.job))
}
