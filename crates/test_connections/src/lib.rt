//! Tests alone: connections over the machine's sockets in one process, by clients that say all at once, stop
//! or go; a connection that lasts too long; and the moments of a clock that can't be read. Nothing here is
//! proved or used by a program.
#![tactic(auto)]

#[cfg(test)]
mod clients;
#[cfg(test)]
mod clocks;
#[cfg(test)]
mod connections;
#[cfg(test)]
mod limits;
#[cfg(test)]
mod ports;
