// What happens in a run.
use acs_tree::Compare;
use desk_common::Items;
use dsn_mask::Lit;

/// What happens in a run. Places are tokens, counted from 0. What a variable holds is told as WRITE writes it.
#[derive(Clone, Copy)]
pub enum Event {
    /// The statement at a token is begun.
    Ran(u32),
    /// The variable at one token, which held this, is compared with the operand at another.
    Compared {
        left: u32,
        op: Compare,
        right: u32,
        value: Lit,
        holds: bool,
    },
    /// The WHEN at a token is taken.
    Taken(u32),
    /// The variable at a token is set, and holds this now.
    Set {
        target: u32,
        value: Lit,
    },
    /// A line is written.
    Wrote(Lit),
    /// An EXIT is met, with its code.
    Exited(u16),
}

/// Events in their order.
pub type Events = Items<Event>;
