//! The tables of a bank by name, and the faults for which one of them is not read whole.

ghost use Rattle.std.specs.Prelude.{◌≡◌};
ghost use Rattle.money.specs.declared.fault.Fault.TheVariants.{Memory};
ghost use Rattle.sql_whole.specs.Faults.{IsOfDatabase, read_fault_named};

use money::Fault;
use sql_schema::fault_of;
use sqlite::{Error, ErrorCode};
use thiserror::Error as FaultText;

/// A table of a bank.
#[derive(Clone, Copy, Debug, PartialEq, Eq)]
pub enum Table {
    /// The row of the bank: the versions of its tables and of its policy.
    Bank,
    /// The users.
    Users,
    /// The sets, without their members.
    Sets,
    /// The members of the sets.
    Members,
    /// The certified relations.
    Relations,
    /// The triples.
    Triples,
    /// The certifiers.
    Certifiers,
    /// The branches.
    Branches,
    /// The tellers.
    Tellers,
    /// The accounts.
    Accounts,
    /// The entries of all histories.
    Entries,
    /// The lines of all cash books.
    Lines,
    /// The proofs of all ended days.
    Proofs,
    /// The releases.
    Releases,
    /// The slips.
    Slips,
    /// How many slips each user has.
    SlipCounts,
}

/// Why a table was not read whole.
#[derive(Clone, Copy, Debug, PartialEq, Eq, FaultText)]
pub enum ReadFault {
    /// Memory or a size was refused, or the disk failed.
    #[error("{0}")]
    Fault(Fault),
    /// The table, or a column of it, is not there.
    #[error("a table is missing")]
    Missing(Table),
    /// A value of a row of the table is none that its column may have.
    #[error("a value is out of its limits")]
    OutOfLimits(Table),
    /// A user's number or name is none that a user may have, and all else in the table of the users is
    /// within its limits.
    #[error("a user is out of the limits")]
    UserOutOfLimits,
}

/// Why a query for a table was refused: memory, a size, the disk or a limit on the connection's steps, or
/// else the table is not there, or not with these columns.
pub(crate) fn read_fault(error: Error, table: Table) -> ReadFault
    ensures { result ≡ read_fault_named error table }
{
    match error {
        Error::SqliteFailure(
            ErrorCode::OutOfMemory
            | ErrorCode::TooBig
            | ErrorCode::SystemIoFailure
            | ErrorCode::DatabaseCorrupt
            | ErrorCode::NotADatabase
            | ErrorCode::DiskFull
            | ErrorCode::Closed
            | ErrorCode::OperationInterrupted,
        ) => ReadFault::Fault(fault_of(error)),
        _ => ReadFault::Missing(table),
    }
}

/// Why a table is refused of which a value was not read: memory, or else the value is out of its limits.
pub(crate) fn value_fault(fault: Fault, table: Table) -> ReadFault
    ensures { fault ≡ Memory → IsOfDatabase result }
{
    match fault {
        Fault::Memory => ReadFault::Fault(Fault::Memory),
        _ => ReadFault::OutOfLimits(table),
    }
}
