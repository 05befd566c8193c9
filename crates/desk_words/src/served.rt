//! What the words of the desk's command line ask to be served.

/// A desk that is to be served (docs/manual/http.md, "The program").
#[derive(Clone, Copy, Debug, PartialEq, Eq)]
pub struct ServeWords {
    /// The port on 127.0.0.1, 1 to 65,535.
    pub port: u16,
    /// The most connections of each worker, 1 to 1,000,000.
    pub connections: u32,
    /// How many workers there are.
    pub workers: u8,
}
