//! How a script is answered.

/// How a script is answered on a store.
#[derive(Clone, Copy, Debug, PartialEq, Eq)]
pub struct Running {
    /// The table of volumes stands behind the answers.
    pub volumes: bool,
    /// An answer that tells that something was refused or couldn't be done ends the program as a fault does.
    pub strict: bool,
    /// Behind the script space management does what is due on this day, if one is named.
    pub managed: Option<u32>,
}
