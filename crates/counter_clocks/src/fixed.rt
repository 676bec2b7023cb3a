//! A clock that gives every message the same moment.

use crate::clock::Clock;
use crate::moment::Moment;

/// A clock that stands still.
#[derive(Clone, Copy, Debug, PartialEq, Eq)]
pub struct Fixed {
    /// The moment that it gives each time.
    pub moment: Moment,
}

impl Clock for Fixed {
    ghost use Rattle.counter_clocks.specs.Standing.{gives_its_own};

    ghost may_give = { gives_its_own };

    fn moment(&mut self) -> u64 {
        self.moment.seconds()
    }
}
