//! What the system reports as ready, and how the loop waits for that.

ghost use Rattle.std.specs.Prelude.{◌≡◌, Bool, List, [], ◌∷◌, IfOk, Option, None, true};
ghost use Rattle.std.specs.declared.time.Instant.{Instant};
ghost use Rattle.counter_door.specs.Readiness.{with_reports};
ghost use Rattle.counter_door.specs.declared.readiness.Ready.{Ready};

use mio::event::Source;
use mio::unix::SourceFd;
use mio::{Events, Interest, Poll, Registry, Token};
use std::alloc::Global;
use std::net::Net;
use std::os::fd::RawFd;
use std::time::{Duration, Instant};
use std::{io, time};

/// How many are reported at once.
const REPORTS_AT_ONCE: usize = 256;

/// The token of the door.
const DOOR: Token = Token(usize::MAX);

/// The token of what ends the serving.
const END: Token = Token(usize::MAX - 1);

/// What is reported.
#[derive(Clone, Copy)]
pub enum Ready {
    /// A connection waits at the door.
    Door,
    /// The serving is to end.
    End,
    /// The connection that was registered under this key can be read or written.
    Connection(usize),
}

/// Reports what is ready, and has a clock that runs.
pub trait Readiness {
    /// What it has reported since it began, wait after wait, if it keeps that.
    ghost reported: { Self → Option (List (List Ready)) } = { λ _. None };

    /// Whether its clock showed this instant after it had reported this much. Nobody who makes up an instant knows that of it.
    ghost shows: { Self → Option (List (List Ready)) → Instant → Bool } = { λ _ _ _. true };

    /// Which connections it reports.
    fn registry(&self) -> &Registry;

    /// What its clock shows.
    fn now(&self) -> io::Result<Instant>
        ensures { IfOk result (λ now. shows self.now (reported self.now) now ≡ true) };

    /// Waits until something is ready, for so long at most. `ready` holds what is reported then, in place of what it held.
    fn wait(&mut self, most: Duration, ready: &mut Vec<Ready>) -> io::Result<()>
        ensures reported { reported self.new ≡ with_reports (reported self.old) (ready.new.items ∷ []) }
        ensures clock { shows self.new ≡ shows self.old };
}

/// The machine, which reports who asks at a door, what arrives at connections, and that serving ends.
#[derive(Drop)]
pub struct System<'n, N> {
    net: &'n N,
    poll: Poll,
    events: Events<Global>,
}

impl<'n, N: Net> System<'n, N> {
    /// It reports a door, and the end once the other side of `until` is closed, if that is given and can be waited for, as a
    /// pipe can. An error comes if the system refuses the door, or memory.
    pub fn new<D: Source>(
        net: &'n N,
        alloc: Global,
        door: &mut D,
        until: Option<RawFd>,
    ) -> io::Result<System<'n, N>> {
        let poll = Poll::new(net)?;
        let events = Events::with_capacity(alloc, REPORTS_AT_ONCE)?;
        poll.registry().register(door, DOOR, Interest::READABLE)?;
        if let Some(fd) = until {
            // What can't be waited for, as a file, ends nothing.
            let _ = poll
                .registry()
                .register(&mut SourceFd(&fd), END, Interest::READABLE);
        }
        Ok(System { net, poll, events })
    }
}

impl<'n, N: Net + time::Clock> Readiness for System<'n, N> {
    fn registry(&self) -> &Registry {
        self.poll.registry()
    }

    fn now(&self) -> io::Result<Instant> {
        Instant::now(self.net)
    }

    fn wait(&mut self, most: Duration, ready: &mut Vec<Ready>) -> io::Result<()> {
        ready.clear();
        self.poll.poll(&mut self.events, Some(most))?;
        for event in self.events.iter() {
            let token = event.token();
            if token == DOOR {
                ready.push(Ready::Door)?;
            } else if token != END {
                ready.push(Ready::Connection(token.0))?;
            } else if event.is_read_closed() {
                ready.push(Ready::End)?;
            }
        }
        Ok(())
    }
}
