// What a reader has read of a statement, before it is one. What is wide is in a box, so that readers
// that call themselves keep little on the stack.
use acs_tree::{Block, Cond, Operands, Ref, Stmt, Whens};
use desk_common::Boxed;

/// The parts of the form of a statement that has others inside it.
#[derive(Drop)]
pub enum FormParts {
    If {
        cond: Boxed<Cond>,
        yes: Boxed<Stmt>,
        otherwise: Option<Boxed<Stmt>>,
    },
    Pick {
        subject: Option<Boxed<Ref>>,
        whens: Whens,
        otherwise: Option<Boxed<Stmt>>,
    },
    Do(Block),
}

/// The parts of what a WHEN has in parentheses.
#[derive(Drop)]
pub enum TestParts {
    Any(Operands),
    Holds(Boxed<Cond>),
}

/// The parts of a WHEN.
#[derive(Drop)]
pub struct WhenParts {
    pub at: u32,
    pub test: TestParts,
    pub body: Boxed<Stmt>,
}
