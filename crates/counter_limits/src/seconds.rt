//! The numbers of seconds that a client may take, as docs/GUIDE.md and docs/MESSAGES.md have them.

/// `serve`: for one read or write. `counter`: for the rest of a message, from its first byte, and to take a batch of bytes.
pub const MAX_WAIT: u64 = 30;

/// `serve`: for how long a connection is read from.
pub const MAX_READING: u64 = 120;

/// `serve`: for how long it is written to. A message that was read last has its reply.
pub const MAX_WRITING: u64 = 180;

/// Both: for how long a client that is not answered any more is read from.
pub const MAX_LINGERING: u64 = 1;

/// `counter`: for how long an end by order goes on, after each connection was visited.
pub const MAX_ENDING: u64 = 1;

/// `counter`: how long it is from when the late are let go to when that is done again.
pub const BETWEEN_SWEEPS: u64 = 1;
