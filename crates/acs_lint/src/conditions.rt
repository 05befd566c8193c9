// Conditions that imply others.
ghost use Rattle.std.specs.Prelude.{◌≡◌};
ghost use Rattle.acs_lint.specs.Covering.{implied_by};

use crate::operands::test_implies;
use acs_tree::Cond;

/// Whether the later condition holds only where the earlier one does. Each comparison of the one meets each of the
/// other once at most.
#[tactic(auto, using(crate::proofs::CondLemmas::implied_steps))]
pub fn implies(later: &Cond, earlier: &Cond) -> bool
    ensures { result ≡ implied_by earlier.now later.now }
{
    match earlier {
        Cond::And(one, two) => implies(later, one.get()) && implies(later, two.get()),
        Cond::Or(one, two) => match later {
            Cond::And(first, second) => {
                implies(first.get(), earlier) || implies(second.get(), earlier)
            }
            Cond::Or(first, second) => {
                implies(first.get(), earlier) && implies(second.get(), earlier)
            }
            Cond::Test { .. } => implies(later, one.get()) || implies(later, two.get()),
        },
        Cond::Test {
            left: other_left,
            op: other_op,
            right: other_right,
            ..
        } => match later {
            Cond::And(first, second) => {
                implies(first.get(), earlier) || implies(second.get(), earlier)
            }
            Cond::Or(first, second) => {
                implies(first.get(), earlier) && implies(second.get(), earlier)
            }
            Cond::Test {
                left,
                op,
                right,
                ..
            } => test_implies(left, *op, right, other_left, *other_op, other_right),
        },
    }
}
