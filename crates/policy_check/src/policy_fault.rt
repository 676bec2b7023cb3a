//! The faults of a policy, and the text in which each is reported.

use bank_terms::Procedure;
use thiserror::Error;

/// Why a policy is refused. It is sound where none of its rows dangles.
#[derive(Clone, Copy, Debug, PartialEq, Eq, Error)]
pub enum PolicyFault {
    /// In a sound policy in which no officer holds anything, this user may execute a procedure that they certify. It is
    /// the least user who may, and the procedure is the one of the least number.
    #[error("separation, user {user}, procedure {}", .procedure.name())]
    Separation {
        /// The user.
        user: u32,
        /// The procedure.
        procedure: Procedure,
    },
    /// In a sound policy, this officer has a triple, is a certifier, or certified a relation. It is the officer of
    /// the least number of whom that is so.
    #[error("officer holds, user {user}")]
    OfficerHolds {
        /// The officer.
        user: u32,
    },
    /// A key stands twice, a number or a count is out of its limits, or a row names one that is missing.
    #[error("dangling")]
    Dangling,
}
