//! Where a counter waits for its connections: a port of this machine, a Unix socket, or the listening socket that
//! the program was started with. `say_listening` says so by one line on a stream, and flushes it. Nothing here
//! opens a socket: the place is read from the command line above, and acquired by who serves it.
#![tactic(auto)]

mod place;
mod saying;

pub use place::Place;
pub use saying::say_listening;
