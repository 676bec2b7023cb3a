//! How the reply to a message is framed: whether the connection ends after it, and whether its body is sent.

/// What a reply owes to the message that it answers.
#[derive(Clone, Copy, Debug, PartialEq, Eq)]
pub struct Framing {
    /// The connection ends after it, and it says so.
    pub close: bool,
    /// It has the length of its body, and no body: it answers a HEAD.
    pub head_only: bool,
}
