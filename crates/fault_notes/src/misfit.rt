//! Where a line of a script stops being a command.

/// The offset in its line at which a line isn't as any command, and what is wanted there.
#[derive(Clone, Copy)]
pub struct Misfit {
    pub at: usize,
    pub wanted: &'static str,
}
