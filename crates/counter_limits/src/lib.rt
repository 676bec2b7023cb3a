//! How long the client of a connection may take, for `serve` and for `counter`. The numbers of seconds stand in one
//! file, each with what it is for. `end_after` is the instant at which such a time is over, by the machine's running
//! clock, which nobody sets; `has_time` says whether it is still to come. How a program waits until then is its own.
#![tactic(auto)]

mod ends;
mod seconds;

pub use ends::{end_after, has_time};
pub use seconds::{BETWEEN_SWEEPS, MAX_ENDING, MAX_LINGERING, MAX_READING, MAX_WAIT, MAX_WRITING};
