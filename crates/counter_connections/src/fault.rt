//! The faults by which the serving of a port ends early.

use thiserror::Error;

/// Why a port was not served until all messages were counted.
#[derive(Clone, Copy, Debug, PartialEq, Eq, Drop, Error)]
pub enum PortFault {
    /// The port could not be bound or announced, or a connection at it could not be accepted.
    #[error("stream: broken")]
    Broken,
    /// Memory was refused for a cache of the policy. Nothing was done.
    #[error("memory")]
    Memory,
}
