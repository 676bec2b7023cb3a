//! A clock that gives messages the seconds that the machine's clock reads.

ghost use Rattle.std.specs.Prelude.{◌≡◌, option_map};
ghost use Rattle.std.specs.Duration.{as_nanos};
ghost use Rattle.counter_clocks.specs.Running.{moment_not_before};

use crate::clock::Clock;
use crate::moment::Moment;
use crate::shows::Shows;
use std::time::Duration;

/// The machine's clock, in whole seconds since 1970, cut to the last moment. Where it can't be read it gives the moment that
/// it gave before, at first 0.
#[derive(Drop)]
pub struct MachineClock<'a, T: Shows> {
    machine: &'a T,
    last: Moment,
}

impl<'a, T: Shows> MachineClock<'a, T> {
    /// The clock of a machine, which has given no moment yet.
    pub fn of(machine: &'a T) -> MachineClock<'a, T>
        ensures { result.last ≡ 0 }
    {
        MachineClock {
            machine,
            last: Moment::cut(0),
        }
    }
}

impl<'a, T: Shows> Clock for MachineClock<'a, T> {
    ghost use Rattle.counter_clocks.specs.Running.{GivesReading};

    ghost may_give = { GivesReading T.may_show };

    fn moment(&mut self) -> u64 {
        self.last = moment_not_before(self.last, self.machine.shown());
        self.last.seconds()
    }
}

/// The moment that is given after the last one, by what the machine's clock reads, if it can be read.
fn moment_not_before(last: Moment, reading: Option<Duration>) -> Moment
    ensures { result ≡ moment_not_before last (option_map as_nanos reading) }
{
    match reading {
        Some(since) => Moment::cut(since.as_secs()),
        None => last,
    }
}
