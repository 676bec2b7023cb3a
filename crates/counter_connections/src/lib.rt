//! Serves connections over any store, to the users of any gate. `serve_connections` serves them one after
//! another until enough messages are counted: a fault of serving ends its connection alone, and each takes
//! over the bank as the one before left it. `serve_port` binds a port of 127.0.0.1 first;
//! `serve_port_with_cache` puts a cache before the store. A client that is silent or stays too long, by
//! counter_limits, is let go. How sockets keep these limits is only tested.
#![tactic(auto)]

mod calls;
mod connection;
mod connections;
mod fault;
mod limited;
mod lingering;
mod listener;
mod port;
mod running;

pub use calls::CallFailures;
pub use connections::serve_connections;
pub use fault::PortFault;
pub use listener::{CountedListener, Failures};
pub use port::{CountedPort, serve_port, serve_port_with_cache};
