//! The running clock of a machine, as it is read.

use std::time;
use std::time::Instant;

/// A running clock.
pub(crate) trait Runs {
    ghost use Rattle.std.specs.Prelude.{Option};
    ghost use Rattle.std.specs.declared.time.Instant.{Instant as Shown};

    /// What it may show; none, if it can't be read.
    ghost may_show: { Self → Option Shown → Type 0 };

    /// What it shows.
    fn shown(&self) -> Option<Instant>
        ensures { may_show self.now result };
}

impl<M: time::Clock> Runs for M {
    ghost use Rattle.std.specs.Prelude.{⊤};

    ghost may_show = { λ _ _. ⊤ };

    fn shown(&self) -> Option<Instant> {
        Instant::now(self).ok()
    }
}
