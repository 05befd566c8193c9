//! Where something may happen in a routine.
ghost use Rattle.std.specs.Prelude.{◌≡◌};
ghost use Rattle.acs_coverage.specs.Points.{is_of, place_of};

use crate::class::Class;
use acs_tree::Compare;
use desk_common::Items;

/// A place of a routine at which something may happen, by its tokens, counted from 0.
#[derive(Clone, Copy)]
pub enum Point {
    /// The statement at a token may be begun.
    Statement(u32),
    /// The WHEN at a token may be taken.
    When(u32),
    /// The variable at one token may be compared with the operand at another.
    Comparison { left: u32, op: Compare, right: u32 },
}

/// Points in the order of the routine's text.
pub type Points = Items<Point>;

impl Point {
    /// The token that it stands at: of a comparison that of its right side.
    pub fn place(&self) -> u32
        ensures { result ≡ place_of self.now }
    {
        match self {
            Point::Statement(at) | Point::When(at) => *at,
            Point::Comparison { right, .. } => *right,
        }
    }

    /// Whether it is of this class.
    pub fn is_of(&self, class: Class) -> bool
        ensures { result ≡ is_of class self.now }
    {
        match (self, class) {
            (Point::Statement(_), Class::Statement) => true,
            (Point::When(_), Class::When) => true,
            (Point::Comparison { .. }, Class::Comparison) => true,
            _ => false,
        }
    }
}
