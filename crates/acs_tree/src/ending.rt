// How a run ends.

/// How a run ends: at the routine's END, or by an EXIT with its code.
#[derive(Clone, Copy, Debug, PartialEq, Eq)]
pub enum Ending {
    Falls,
    Exit(u16),
}
