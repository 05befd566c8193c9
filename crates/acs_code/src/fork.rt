// Where a condition goes on.

/// The places where a condition goes on: where it holds, and where it fails.
#[derive(Clone, Copy)]
pub struct Fork {
    pub holds: u64,
    pub fails: u64,
}
