// The checks of a whole routine.
ghost use Rattle.std.specs.Prelude.{◌≡◌, ◌≤◌, ◌<◌, ◌+◌, [], None, IfErr, IfOk, length, map, take};
ghost use Rattle.desk_common.specs.Exact.{IsExact};
ghost use Rattle.acs_tree.specs.Sound.{IsFirstFault};
ghost use Rattle.acs_tree.specs.CheckedRoutine.{IsCheckedOf};
ghost use Rattle.acs_check.specs.Inner.Marks.{is_simple_statement};
ghost use Rattle.acs_check.specs.Inner.Walk.{first_fault_of, passed};

use crate::earlier::Earlier;
use crate::lists::is_simple_statement;
use crate::nodes::{Best, head};
use crate::places::Places;
use crate::statements::statement;
use acs_tree::{CheckErr, Checked, Kind, Routine, Stmt};

// Of so many statements it is kept whether each has simple masks alone.
const MARKS: usize = 16384;

fn mark_next(body: &[Stmt], marks: &mut [bool], marked: usize) -> usize
    requires marks { take marked marks.old ≡ map is_simple_statement (take marked body.now) }
    requires inside { marked < length body.now }
    requires room { marked ≤ length marks.old }
    ensures marks { take result marks.new ≡ map is_simple_statement (take result body.now) }
    ensures one { result ≤ marked + 1 }
    ensures next { marked < length marks.old → result ≡ marked + 1 }
    ensures room { result ≤ length marks.new }
{
    if marked == marks.len() {
        return marked;
    }
    marks[marked] = is_simple_statement(&body[marked]);
    marked + 1
}

fn body(kind: Kind, body: &[Stmt], best: Best) -> Best
    ensures { result ≡ passed kind [] best body.now }
{
    let mut marks = [false; MARKS];
    let mut marked = 0;
    let mut places = Places::new();
    let mut best = best;
    for index in 0..body.len() {
        let before = Earlier::new(&body[..index], &marks[..marked], &places);
        best = statement(&body[index], kind, &before, best);
        marked = mark_next(body, &mut marks, marked);
        places.note(&body[index], index);
    }
    best
}

fn first_fault(tree: &Routine, kind: Kind) -> Best
    ensures { result ≡ first_fault_of tree.now kind }
{
    let best = head(kind, &tree.head, tree.head_at, None);
    body(kind, tree.body.as_slice(), best)
}

/// The routine as a checked one of that kind, or its first broken check. Filter lists are looked up
/// by name among the statements of the body that stand before.
pub fn check(tree: Routine, kind: Kind) -> Result<Checked, CheckErr>
    ensures ok { IfOk result (IsCheckedOf tree kind) }
    ensures err { IfErr result (IsFirstFault tree kind) }
    ensures exactly { IsExact (IsCheckedOf tree kind) (IsFirstFault tree kind) None result }
{
    match first_fault(&tree, kind) {
        Some(err) => Err(err),
        None => Ok(Checked::seal(tree, kind)),
    }
}
