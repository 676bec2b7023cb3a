//! What a message asks of a bank, be it an operation, a session, a command or the listing, by whom and when.

use crate::who::Who;
use counter_ops::Op;
use policy_commands::PolicyOp;

/// What a message asks of a bank.
#[derive(Debug, Drop)]
pub enum Asked {
    /// An operation.
    Operation(Op),
    /// The opening of a session.
    Opening,
    /// The ending of a session.
    Ending,
    /// A command of the policy.
    Command(PolicyOp),
    /// The listing of the policy.
    Listing,
}

/// What a message asks of a bank, by whom, and when.
#[derive(Debug, Drop)]
pub struct Request {
    /// Who asks.
    pub who: Who,
    /// The moment that it bears, in seconds, 0 to 99,999,999,999.
    pub moment: u64,
    /// What is asked for.
    pub asked: Asked,
}
