//! Why a list is not gathered: the number of a bad record, or memory that was refused.

use std::alloc::AllocError;
use thiserror::Error;

/// Why a list is not gathered.
#[derive(Clone, Copy, Debug, PartialEq, Eq, Drop, Error)]
pub enum RecordFault {
    /// The record of this number is bad, and none before it is. The heading is record 1.
    #[error("record {0}")]
    Bad(u64),
    /// Memory was refused.
    #[error("memory")]
    Memory,
}

impl From<AllocError> for RecordFault {
    ghost use Rattle.std.specs.Prelude.{◌≡◌};
    ghost use Rattle.list_records.specs.declared.fault.RecordFault.TheVariants.{Memory};

    ghost from_gives = { λ _ fault. fault ≡ Memory };

    fn from(_refused: AllocError) -> RecordFault {
        RecordFault::Memory
    }
}

/// A read of bytes in memory fails for want of memory alone.
impl From<csv::Error> for RecordFault {
    ghost use Rattle.std.specs.Prelude.{◌≡◌};
    ghost use Rattle.list_records.specs.declared.fault.RecordFault.TheVariants.{Memory};

    ghost from_gives = { λ _ fault. fault ≡ Memory };

    fn from(_failed: csv::Error) -> RecordFault {
        RecordFault::from(AllocError)
    }
}
