//! A machine's clock that replays a script of readings, and the moments that it gives to messages.
use counter_api::Clock;
use counter_clocks::MachineClock;
use std::cell::Cell;
use std::io::ErrorKind;
use std::time::Duration;
use std::{io, time};

/// Replays its readings, one after another. It fails at a reading that is none, and after the last.
#[derive(Drop)]
pub(crate) struct ScriptedClock<'a> {
    pub(crate) readings: &'a [Option<Duration>],
    pub(crate) read: Cell<usize>,
}

impl<'a> ScriptedClock<'a> {
    pub(crate) fn new(readings: &'a [Option<Duration>]) -> ScriptedClock<'a> {
        ScriptedClock {
            readings,
            read: Cell::new(0),
        }
    }

    fn reading(&self) -> io::Result<Duration> {
        let at = self.read.get();
        self.read.set(at.saturating_add(1));
        match self.readings.get(at) {
            Some(Some(reading)) => Ok(*reading),
            _ => Err(ErrorKind::Other.into()),
        }
    }
}

impl time::Clock for ScriptedClock<'_> {
    fn monotonic(&self) -> io::Result<Duration> {
        self.reading()
    }

    fn since_1970(&self) -> io::Result<Duration> {
        self.reading()
    }
}

#[test]
fn moments_are_whole_seconds_up_to_the_last(rt: HostRuntime) {
    let readings = [
        Some(Duration::from_millis(5_999)),
        Some(Duration::from_secs(99_999_999_999)),
        Some(Duration::from_secs(100_000_000_000)),
        Some(Duration::MAX),
        Some(Duration::from_nanos(999_999_999)),
    ];
    let machine = ScriptedClock::new(&readings);
    let mut clock = MachineClock::of(&machine);
    for moment in [5, 99_999_999_999, 99_999_999_999, 99_999_999_999, 0] {
        assert!(rt; clock.moment() == moment);
    }
}

#[test]
fn clock_that_cannot_be_read_gives_the_previous_moment(rt: HostRuntime) {
    let readings = [
        None,
        Some(Duration::from_secs(700)),
        None,
        None,
        Some(Duration::from_secs(699)),
    ];
    let machine = ScriptedClock::new(&readings);
    let mut clock = MachineClock::of(&machine);
    for moment in [0, 700, 700, 700, 699] {
        assert!(rt; clock.moment() == moment);
    }
}
