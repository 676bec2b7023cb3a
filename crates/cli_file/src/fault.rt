//! The faults of actions over a file, and the line that reports each.

ghost use Rattle.std.specs.Prelude.{◌≡◌};
ghost use Rattle.cli_file.specs.Faults.{IsOfBadges, IsOfFile, fault_of_adopting, fault_of_store, is_refusal};

use book_check::BooksFault;
use list_opening::{ListFault, RecordFault};
use money::Fault;
use policy_check::PolicyFault;
use sql_adopt::AdoptFault;
use sqlite::{Error, ErrorCode};
use std::io;
use std::io::ErrorKind;
use thiserror::Error;

/// Why an action is not carried out, or not to its end. Its text is the line that reports it.
#[derive(Clone, Copy, Debug, PartialEq, Eq, Drop, Error)]
pub enum ActionFault<'a> {
    /// A record of an opening list is bad.
    #[error("lists: {0}")]
    List(ListFault),
    /// A record of the list of badges is bad.
    #[error("lists: {list}, record {row}")]
    Badge {
        /// The list, as it was given.
        list: &'a str,
        /// The number of the record, that of the heading being 1.
        row: u64,
    },
    /// The books do not hold.
    #[error("books: {0}")]
    Books(BooksFault),
    /// The books hold, and the policy is refused.
    #[error("policy: {0}")]
    Policy(PolicyFault),
    /// A file is not there or can't be read, is in use, or its disk failed.
    #[error("file: not read")]
    NotRead,
    /// The tables of the file are not those of a bank.
    #[error("file: not a bank")]
    NotABank,
    /// They are those of another version.
    #[error("file: other version")]
    OtherVersion,
    /// A bank is to be made in a file that holds something already.
    #[error("file: not empty")]
    NotEmpty,
    /// A bank can't begin its next year: this is the least branch that is not closed.
    #[error("year: not closed, branch {0}")]
    NotClosed(u32),
    /// The input ended inside a message.
    #[error("stream: cut")]
    Cut,
    /// A read or a write of a stream failed; or a port could not be bound, or a connection not accepted.
    #[error("stream: broken")]
    Broken,
    /// Memory was refused.
    #[error("memory")]
    Memory,
}

impl<'a> ActionFault<'a> {
    /// Whether what was handed in is refused: books, a policy, lists or a year. A refusal is reported on standard
    /// output, with status 1, and every other fault on standard error, with status 3.
    pub fn is_refusal(&self) -> bool
        ensures { result ≡ is_refusal self.now }
    {
        matches!(
            self,
            ActionFault::List(_)
                | ActionFault::Badge { .. }
                | ActionFault::Books(_)
                | ActionFault::Policy(_)
                | ActionFault::NotClosed(_)
        )
    }

    /// Why a store did not do what it was asked for.
    pub fn of_store(fault: Fault) -> ActionFault<'a>
        ensures { result ≡ fault_of_store fault }
    {
        match fault {
            Fault::Memory => ActionFault::Memory,
            Fault::Size | Fault::Disk | Fault::Stopped => ActionFault::NotRead,
        }
    }

    /// Why the bank in a file is not adopted.
    pub fn of_adopting(fault: AdoptFault) -> ActionFault<'a>
        ensures { result ≡ fault_of_adopting fault }
    {
        match fault {
            AdoptFault::NotABank => ActionFault::NotABank,
            AdoptFault::Version => ActionFault::OtherVersion,
            AdoptFault::Books(fault) => ActionFault::Books(fault),
            AdoptFault::Policy(fault) => ActionFault::Policy(fault),
            AdoptFault::Fault(fault) => ActionFault::of_store(fault),
        }
    }

    /// Why a file is not closed.
    pub(crate) fn of_closing(error: Error) -> ActionFault<'a>
        ensures { IsOfFile result }
    {
        match error {
            Error::SqliteFailure(ErrorCode::OutOfMemory) => ActionFault::Memory,
            _ => ActionFault::NotRead,
        }
    }

    /// Why a file can't be read, or looked at.
    pub fn of_io(error: &io::Error) -> ActionFault<'a>
        ensures { IsOfFile result }
    {
        if error.kind() == ErrorKind::OutOfMemory {
            ActionFault::Memory
        } else {
            ActionFault::NotRead
        }
    }

    /// Why a list of badges, of this name, states none.
    pub fn of_badges(list: &'a str, fault: RecordFault) -> ActionFault<'a>
        ensures { IsOfBadges list.now fault result }
    {
        match fault {
            RecordFault::Memory => ActionFault::Memory,
            RecordFault::Bad(row) => ActionFault::Badge { list, row },
        }
    }
}
