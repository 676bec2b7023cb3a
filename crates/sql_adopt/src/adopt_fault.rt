//! The faults for which a bank is not adopted, and which of them is given for a table that was not read.

ghost use Rattle.std.specs.Prelude.{◌≡◌, ◌⊎◌};
ghost use Rattle.sql_adopt.specs.Refused.{IsMissing, IsOfStore, IsOfUnread};
ghost use Rattle.sql_whole.specs.Faults.{IsOfDatabase};

use book_check::BooksFault;
use money::Fault;
use policy_check::PolicyFault;
use sql_whole::{ReadFault, Table};
use thiserror::Error;

/// Why a bank is not adopted.
#[derive(Clone, Copy, Debug, PartialEq, Eq, Error)]
pub enum AdoptFault {
    /// A table of a bank is not there as its query asks for it, or the table of the bank has not the one row
    /// that it has.
    #[error("not a bank")]
    NotABank,
    /// The books do not hold, or a row of them, the version of the policy, or what a user's row says beside
    /// the user's number and name is out of its limits.
    #[error("books: {0}")]
    Books(BooksFault),
    /// The books hold, and the policy is refused, or a row of it is out of its limits; or a user's number or
    /// name is, so that the books, each row of which is within its limits, can't be judged.
    #[error("policy: {0}")]
    Policy(PolicyFault),
    /// The tables are those of another version.
    #[error("other version")]
    Version,
    /// The database failed, or memory or a limit on size kept it from the whole.
    #[error("{0}")]
    Fault(Fault),
}

/// Why a bank is not adopted of which its own row was not read, or another table was not there.
pub(crate) fn table_unread(fault: ReadFault) -> AdoptFault
    ensures store { IsOfDatabase fault → IsOfStore result }
    ensures named { IsOfStore result → IsOfDatabase fault }
{
    match fault {
        ReadFault::Fault(fault) => AdoptFault::Fault(fault),
        _ => AdoptFault::NotABank,
    }
}

/// Why a bank is not adopted of whose books a table was not read, that was there when it was asked for.
pub(crate) fn books_unread(fault: ReadFault) -> AdoptFault
    ensures beyond { IsOfUnread result }
    ensures store { IsOfDatabase fault → IsOfStore result }
    ensures named { IsOfStore result → IsOfDatabase fault ⊎ IsMissing fault }
{
    match fault {
        ReadFault::Fault(fault) => AdoptFault::Fault(fault),
        ReadFault::Missing(_) => AdoptFault::Fault(Fault::Disk),
        ReadFault::OutOfLimits(_) => AdoptFault::Books(BooksFault::Range),
        ReadFault::UserOutOfLimits => AdoptFault::Policy(PolicyFault::Dangling),
    }
}
