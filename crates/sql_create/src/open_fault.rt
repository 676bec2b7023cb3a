//! What is reported where no bank is made: the books, the policy, a database that isn't empty, or a fault.

use book_check::BooksFault;
use money::Fault;
use policy_check::PolicyFault;
use thiserror::Error;

/// Why a bank is not made.
#[derive(Clone, Copy, Debug, PartialEq, Eq, Error)]
pub enum OpenFault {
    /// The books do not hold.
    #[error("books: {0}")]
    Books(BooksFault),
    /// The books hold, and the policy is refused.
    #[error("policy: {0}")]
    Policy(PolicyFault),
    /// The database failed, or memory or a limit on size kept it from the whole.
    #[error("{0}")]
    Fault(Fault),
    /// A bank is made only in a database with no table, no index and no view, and one is there.
    #[error("not empty")]
    NotEmpty,
}
