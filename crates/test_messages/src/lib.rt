//! Tests alone: streams of messages that come in pieces, end within a message or fail at any call, by an
//! engine made for this; how often a stream is called, and how long messages take that come byte by byte; and
//! the bodies of operations and of commands, on bytes that were worked out by hand. Nothing here is proved or
//! used by a program.
#![tactic(auto)]

#[cfg(test)]
mod broken_streams;
#[cfg(test)]
mod command_bodies;
#[cfg(test)]
mod message_streams;
#[cfg(test)]
mod operation_bodies;
#[cfg(test)]
mod single_bytes;
