//! The reasons for which a call of a store, or the forming of a reply, is given up.

use std::alloc::{AllocError, AllocFailed};
use thiserror::Error;

/// Why a call of a store, or one that forms a reply, gave up. What the store represents is as it was.
#[derive(Clone, Copy, Debug, PartialEq, Eq, Error)]
pub enum Fault {
    /// Memory was refused. The next call may succeed.
    #[error("out of memory")]
    Memory,
    /// A size limit of the store was reached.
    #[error("a size limit is reached")]
    Size,
    /// The disk failed. Every later call answers `Stopped` until the store is opened anew, and what it is then is either
    /// as it was or as the call would have made it.
    #[error("the disk failed")]
    Disk,
    /// The store stopped at an earlier failure of its disk.
    #[error("the store is stopped")]
    Stopped,
}

impl From<AllocError> for Fault {
    ghost use Rattle.std.specs.Prelude.{◌≡◌};
    ghost use Rattle.money.specs.declared.fault.Fault.TheVariants.{Memory};

    ghost from_gives = { λ _ fault. fault ≡ Memory };

    fn from(_refused: AllocError) -> Fault {
        Fault::Memory
    }
}

impl<T: Drop> From<AllocFailed<T>> for Fault {
    ghost use Rattle.std.specs.Prelude.{◌≡◌};
    ghost use Rattle.money.specs.declared.fault.Fault.TheVariants.{Memory};

    ghost from_gives = { λ _ fault. fault ≡ Memory };

    fn from(_refused: AllocFailed<T>) -> Fault {
        Fault::from(AllocError)
    }
}
