//! What a clock of the machine shows.

use std::time;
use std::time::Duration;

/// A clock that can be read.
pub trait Shows {
    ghost use Rattle.std.specs.Prelude.{ℕ, Option, option_map};
    ghost use Rattle.std.specs.Duration.{as_nanos};

    /// Which time it may show, in nanoseconds since 1970; none, if it can't be read.
    ghost may_show: { Self → Option ℕ → Type 0 };

    /// The time that it shows.
    fn shown(&self) -> Option<Duration>
        ensures { may_show self.now (option_map as_nanos result) };
}

impl<T: time::Clock> Shows for T {
    ghost use Rattle.std.specs.Prelude.{⊤};

    ghost may_show = { λ _ _. ⊤ };

    fn shown(&self) -> Option<Duration> {
        self.since_1970().ok()
    }
}
