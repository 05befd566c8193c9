// The tree of a routine. Each `at` is the place of a token, counted from 0
// (docs/manual/acs-language.md, Tree).
ghost use Rattle.std.specs.Prelude.{◌≡◌};
ghost use Rattle.acs_tree.specs.References.{is_whole_name};

use crate::ident::Ident;
use desk_common::{Boxed, Items, are_same};
use dsn_mask::Lit;

/// A routine: the name at its head, and its statements in order.
#[derive(Drop)]
pub struct Routine {
    pub head: Ident,
    pub head_at: u32,
    pub body: Block,
}

/// Statements in their order.
pub type Block = Items<Stmt>;

/// A statement or a filter list, with the place of its first token.
#[cycle(statement)]
#[derive(Drop)]
pub struct Stmt {
    pub at: u32,
    pub form: Form,
}

/// What a statement is: a filter list, SET, IF, SELECT, DO, WRITE or EXIT.
#[cycle(statement)]
#[derive(Drop)]
pub enum Form {
    Filt {
        name: Ident,
        name_at: u32,
        include: Operands,
        exclude: Operands,
    },
    Put {
        target: Ref,
        values: Operands,
    },
    If {
        cond: Boxed<Cond>,
        yes: Boxed<Stmt>,
        otherwise: Option<Boxed<Stmt>>,
    },
    Pick {
        subject: Option<Ref>,
        whens: Whens,
        otherwise: Option<Boxed<Stmt>>,
    },
    Do(Block),
    Write(Operands),
    Exit {
        code: Option<Operand>,
    },
}

/// One WHEN of a SELECT, with the place of its word.
#[cycle(statement)]
#[derive(Drop)]
pub struct When {
    pub at: u32,
    pub test: WhenTest,
    pub body: Boxed<Stmt>,
}

/// The WHENs of a SELECT in their order.
pub type Whens = Items<When>;

/// When the statement of a WHEN is done: the subject equals any of these, or the condition holds.
#[derive(Drop)]
pub enum WhenTest {
    Any(Operands),
    Holds(Boxed<Cond>),
}

/// A condition.
#[derive(Drop)]
pub enum Cond {
    And(Boxed<Cond>, Boxed<Cond>),
    Or(Boxed<Cond>, Boxed<Cond>),
    Test {
        left: Ref,
        op: Compare,
        op_at: u32,
        right: Operand,
    },
}

/// A comparison: equal, not equal, greater, less, greater or equal, less or equal, not greater,
/// not less.
#[derive(Clone, Copy, Debug, PartialEq, Eq)]
pub enum Compare {
    Eq,
    Ne,
    Gt,
    Lt,
    Ge,
    Le,
    Ng,
    Nl,
}

/// A variable, without its ampersand, and its index if it has one. Without one `index_at` is 0.
#[derive(Drop)]
pub struct Ref {
    pub at: u32,
    pub name: Ident,
    pub index: Option<Boxed<Ident>>,
    pub index_at: u32,
}

impl Ref {
    /// Whether this is the whole data set name, which masks of qualifiers are compared with.
    pub fn is_whole_name(&self) -> bool
        ensures { result ≡ is_whole_name self.now }
    {
        are_same(self.name.bytes(), b"DSN") && self.index.is_none()
    }
}

/// A value of a list, of SET, of WRITE or at the right of a comparison.
#[derive(Drop)]
pub struct Operand {
    pub at: u32,
    pub form: OperandForm,
}

/// What an operand is: a text between quotes, a word or a variable.
#[derive(Drop)]
pub enum OperandForm {
    Literal(Lit),
    Word(Ident),
    Var(Ref),
}

/// Operands in their order.
pub type Operands = Items<Operand>;
