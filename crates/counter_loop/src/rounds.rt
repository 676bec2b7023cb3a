//! One round: who was reported, or waits for another visit, is visited once. The rounds by which the serving ends.

ghost use Rattle.std.specs.Prelude.{◌≡◌, Contains, true};
ghost use Rattle.counter_loop.specs.Rounds.{GoOn, IsCalled, IsDue, IsRound};
ghost use Rattle.counter_door.specs.declared.readiness.Ready.TheVariants as The;

use crate::clients::Clients;
use crate::service::Service;
use counter_door::{Readiness, Ready, TwoWay};
use counter_limits::MAX_ENDING;
use std::io;
use std::time::{Duration, Instant};

/// Whether the end is reported.
pub(crate) fn has_ended(ready: &[Ready]) -> bool
    ensures { result ≡ true → Contains ready.now The.End }
{
    for n in 0..ready.len() {
        if let Ready::End = ready[n] {
            return true;
        }
    }
    false
}

/// Whether it is reported that a connection waits at the door.
pub(crate) fn is_at_door(ready: &[Ready]) -> bool {
    for n in 0..ready.len() {
        if let Ready::Door = ready[n] {
            return true;
        }
    }
    false
}

/// How long the next round may wait.
pub(crate) fn wait_of(has_more: bool, most: Duration) -> Duration {
    if has_more { Duration::ZERO } else { most }
}

/// Has the connection that is reported wait for a visit, if one is.
fn call_one<T: TwoWay + Drop>(ready: Ready, clients: &mut Clients<T>)
    ensures { IsCalled (λ key. ready ≡ The.Connection key) clients.old clients.new }
{
    let Ready::Connection(key) = ready else {
        return;
    };
    clients.call(key);
}

/// Has the connections that are reported wait for a visit.
fn call_ready<T: TwoWay + Drop>(ready: &[Ready], clients: &mut Clients<T>)
    ensures { IsCalled (λ key. Contains ready.now (The.Connection key)) clients.old clients.new }
{
    for n in 0..ready.len() {
        call_one(ready[n], clients);
    }
}

/// Visits the connections that are reported and those that wait for another visit, each once.
pub(crate) fn serve_round<T: TwoWay + Drop, E: Service>(
    ready: &[Ready],
    clients: &mut Clients<T>,
    service: &mut E,
    now: Instant,
)
    ensures { IsRound T.begins T.ways T.used_up T.full T.failed now E.status E.users E.may_give (IsDue ready.now) clients.old clients.new service.old service.new }
{
    call_ready(ready, clients);
    clients.visit_again(service, now);
}

/// Ends the serving by order. Each connection is visited, however long that takes; then the rest of what has come whole is
/// answered, and what is due is sent, for a second at most. Who waits at the door is not let in. `ready` has the last reports.
pub(crate) fn end_serving<R: Readiness, T: TwoWay + Drop, E: Service>(
    system: &mut R,
    ready: &mut Vec<Ready>,
    clients: &mut Clients<T>,
    service: &mut E,
    now: Instant,
) -> io::Result<()>
    ensures { GoOn T.begins T.ways T.used_up T.full T.failed (R.shows system.old) E.status E.users E.may_give now clients.old clients.new service.old service.new
        (R.reported system.old) (R.reported system.new) }
{
    clients.visit_last(service, now);
    let began = system.now()?;
    for _ in 0..u64::MAX {
        let now = system.now()?;
        let left = Duration::from_secs(MAX_ENDING).saturating_sub(now.duration_since(began));
        if clients.is_empty() || left == Duration::ZERO {
            return Ok(());
        }
        system.wait(wait_of(clients.any_has_more(), left), ready)?;
        serve_round(ready, clients, service, now);
    }
    Ok(())
}
