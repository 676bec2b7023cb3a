//! The kinds of place at which a counter may wait for its connections.

/// Where connections are waited for. A path is as it was given.
#[derive(Clone, Copy, Debug, PartialEq, Eq)]
pub enum Place<'a> {
    /// A port of 127.0.0.1, 1 to 65,535.
    Port(u16),
    /// A Unix socket at this path.
    Socket(&'a str),
    /// The listening socket that the program was started with.
    Inherited,
}
