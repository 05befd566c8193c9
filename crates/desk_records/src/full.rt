//! The limits of a journal.
ghost use Rattle.std.specs.Prelude.{◌≡◌, count_by};
ghost use Rattle.desk_law.specs.Step.{activates, is_activation};
ghost use Rattle.desk_records.specs.Full.{is_full_for};

use sms_construct::{Entry, Op};

const MOST_ENTRIES: usize = 50_000;

const MOST_ACTIVATIONS: usize = 200;

/// Whether the journal, of whose entries so many ask for an activation, has no place for this op
/// (docs/manual/limits.md). No entry is read.
pub fn is_full(journal: &[Entry], activations: usize, op: &Op) -> bool
    requires counted { activations ≡ count_by activates journal.now }
    ensures { result ≡ is_full_for journal.now op.now }
{
    journal.len() >= MOST_ENTRIES || (activates(op) && activations >= MOST_ACTIVATIONS)
}

fn activates(op: &Op) -> bool
    ensures { result ≡ is_activation op.now }
{
    matches!(op, Op::Activate(_))
}
