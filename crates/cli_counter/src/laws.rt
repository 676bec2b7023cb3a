//! What is said of a place beyond the turns of its connections. The functions do nothing; their contracts are the laws.

ghost use Rattle.std.specs.Prelude.{◌≡◌, ℕ, [], Result, suc};
ghost use Rattle.counter_loop.specs.Turns.{StoreAndClock};
ghost use Rattle.cli_file.specs.declared.fault.ActionFault.{ActionFault};
ghost use Rattle.cli_file.specs.declared.left.PathLeft.TheVariants as path;
ghost use Rattle.cli_counter.specs.Attending.{AreHandedBack};

use crate::places::{Places, Visited};
use counter_api::{Clock, Gate};
use counter_door::Door;
use store_rows::Store;

/// A place that is handed back says more than turns: if its door gave a connection, and none is handed back, that is no such place, whatever
/// turns there were.
pub fn nobody_is_dropped_unseen<P: Places, S: Store, G: Gate, C: Clock>(
    _gate: &G,
    _visited: &Visited<P::Entry, P::System, <P::Entry as Door>::Stream>,
)
    ensures { (n : ℕ) (old new : StoreAndClock S C) (result : Result Unit ActionFault) → P.Entry.given _visited.now.door ≡ suc n → _visited.now.parted.log.items ≡ []
        → ¬ (AreHandedBack {P = P} (record { given = P.Entry.given; ways = P.Entry.Stream.ways; full = P.Entry.Stream.full; failed = P.Entry.Stream.failed; begun = P.begun; reported = P.System.reported; shows = P.shows })
        S.status (G.users _gate.now) C.may_give (path.Opened _visited.now) old new result) }
{}
