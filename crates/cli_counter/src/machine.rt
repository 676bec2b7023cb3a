//! The places of the machine: a port, a Unix socket, or the listening socket that the program was started with.

ghost use Rattle.std.specs.Prelude.{IfErr};
ghost use Rattle.cli_counter.specs.Faults.{IsOfCounter};

use crate::faults::fault_of;
use crate::inherited::inherited_socket;
use crate::listener::Listener;
use crate::listening::Listening;
use crate::places::Places;
use crate::probed::Probed;
use crate::socket;
use cli_file::ActionFault;
use counter_door::{Entrance, System};
use counter_places::Place;
use mio::net::TcpListener;
use std::fs;
use std::net::{Ipv4Addr, SocketAddr};

/// The places of the machine.
#[derive(Drop)]
pub struct MachinePlaces<'n> {
    /// The machine.
    pub rt: &'n HostRuntime,
}

impl<'n> Places for MachinePlaces<'n> {
    ghost use Rattle.std.specs.Prelude.{None, true};

    type Entry = Entrance<Probed<Listener>>;

    type System = System<'n, HostRuntime>;

    ghost begun = { None };

    ghost shows = { λ _ _. true };

    fn acquire(
        self,
        rt: &HostRuntime,
        at: Listening<'_>,
    ) -> Result<(Entrance<Probed<Listener>>, System<'n, HostRuntime>), ActionFault<'static>> {
        let mut accepts = listener_at(rt, at.place)?;
        match System::new(self.rt, self.rt.alloc(), &mut accepts, at.until) {
            Ok(system) => Ok((Entrance::new(accepts), system)),
            Err(error) => {
                remove(rt, at.place);
                Err(fault_of(&error))
            }
        }
    }

    fn leave(rt: &HostRuntime, place: Place<'_>) {
        remove(rt, place);
    }
}

/// Removes the Unix socket that was made at a place.
fn remove(rt: &HostRuntime, place: Place<'_>) {
    if let Place::Socket(path) = place {
        let _ = fs::remove_file(rt, path);
    }
}

/// The listening socket of a place.
fn listener_at(rt: &HostRuntime, place: Place<'_>) -> Result<Probed<Listener>, ActionFault<'static>>
    ensures { IfErr result IsOfCounter }
{
    match place {
        Place::Port(port) => {
            match TcpListener::bind(rt, SocketAddr::from((Ipv4Addr::LOCALHOST, port))) {
                Ok(listener) => Ok(Probed::unprobed(Listener::Tcp(listener))),
                Err(error) => Err(fault_of(&error)),
            }
        }
        Place::Socket(path) => match socket::bind(rt, path) {
            Ok(listener) => Ok(Probed::unprobed(Listener::Unix(listener))),
            Err(error) => Err(fault_of(&error)),
        },
        Place::Inherited => match inherited_socket(rt) {
            Some(accepts) => Ok(accepts),
            None => Err(ActionFault::Broken),
        },
    }
}
