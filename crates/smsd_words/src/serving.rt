//! How a store is served.

/// How a store is served.
#[derive(Clone, Copy, Debug, PartialEq, Eq)]
pub struct Serving {
    /// The port of 127.0.0.1, at least 1.
    pub port: u16,
    /// How many connections are served at once, 1 to 10,000.
    pub connections: u16,
    /// For how many seconds nothing may happen at a connection, 1 to 86,400.
    pub idle: u32,
    /// Each connection that ends is told of on standard error.
    pub log: bool,
}
