//! The names of the opening lists, and why they state no World.

use std::alloc::AllocError;
use thiserror::Error;

/// A list of the opening, by its file. They are read in this order.
#[derive(Clone, Copy, Debug, PartialEq, Eq, Drop, Error)]
pub enum ListName {
    /// The branches.
    #[error("branches.csv")]
    Branches,
    /// The tellers.
    #[error("tellers.csv")]
    Tellers,
    /// The accounts.
    #[error("accounts.csv")]
    Accounts,
    /// The users.
    #[error("users.csv")]
    Users,
    /// The members of the sets.
    #[error("sets.csv")]
    Sets,
    /// The certified relations.
    #[error("relations.csv")]
    Relations,
    /// The triples.
    #[error("triples.csv")]
    Triples,
    /// The certifiers.
    #[error("certifiers.csv")]
    Certifiers,
}

/// Why the opening lists state no World.
#[derive(Clone, Copy, Debug, PartialEq, Eq, Drop, Error)]
pub enum ListFault {
    /// The record of this number is the first bad one of its list, and no list before that has one. The heading is record
    /// 1.
    #[error("{file}, record {row}")]
    BadRow {
        /// The list.
        file: ListName,
        /// The number of the record.
        row: u64,
    },
    /// Memory was refused.
    #[error("memory")]
    Memory,
}

impl From<AllocError> for ListFault {
    ghost use Rattle.std.specs.Prelude.{◌≡◌};
    ghost use Rattle.list_opening.specs.declared.list_fault.ListFault.TheVariants.{Memory};

    ghost from_gives = { λ _ fault. fault ≡ Memory };

    fn from(_refused: AllocError) -> ListFault {
        ListFault::Memory
    }
}
