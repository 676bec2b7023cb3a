//! How the place where connections come is acquired, and what is left of it.

use crate::listening::Listening;
use cli_file::ActionFault;
use counter_door::{Door, Parted, Readiness};
use counter_places::Place;

/// How a place is acquired: a door, at which connections are accepted, and a system, which reports what is ready.
pub trait Places: Drop {
    ghost use Rattle.std.specs.Prelude.{◌≡◌, Bool, IfErr, IfOk, List, Option};
    ghost use Rattle.std.specs.declared.time.Instant.{Instant};
    ghost use Rattle.counter_door.specs.Ways.{is_new};
    ghost use Rattle.counter_door.specs.declared.readiness.Ready.{Ready};
    ghost use Rattle.cli_counter.specs.Faults.{IsOfCounter};

    /// The door at a place.
    type Entry: Door + Drop;

    /// What reports who asks there, what arrives, and that serving ends.
    type System: Readiness + Drop;

    /// What a system has reported as it begins, if it keeps that.
    ghost begun: { Option (List (List Ready)) };

    /// Whether its clock showed this instant after it had reported this much.
    ghost shows: { Option (List (List Ready)) → Instant → Bool };

    /// Acquires a place. Nobody was let in there yet, and each connection reports all that was done with it, from when it was
    /// accepted on.
    fn acquire(
        self,
        rt: &HostRuntime,
        at: Listening<'_>,
    ) -> Result<(Self::Entry, Self::System), ActionFault<'static>>
        ensures given { IfOk result (λ as_store_and_clock. Self.Entry.given as_store_and_clock.0 ≡ 0) }
        ensures recorded { IfOk result (λ _. Self.Entry.Stream.begins ≡ is_new) }
        ensures begun { IfOk result (λ as_store_and_clock. Self.System.reported as_store_and_clock.1 ≡ begun) }
        ensures clock { IfOk result (λ as_store_and_clock. Self.System.shows as_store_and_clock.1 ≡ shows) }
        ensures fault { IfErr result IsOfCounter };

    /// Removes what stands at a place that was acquired, if something was made there.
    fn leave(rt: &HostRuntime, place: Place<'_>);
}

/// What is left of a place that was acquired.
#[derive(Drop)]
pub struct Visited<E: Drop, S: Drop, T: Drop> {
    /// The door.
    pub door: E,
    /// What reported.
    pub system: S,
    /// The connections that the door gave, as they were let go.
    pub parted: Parted<T>,
}
