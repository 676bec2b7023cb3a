//! The bank in a file served over a stream and over a port: `serve_in` and `listen_in` in an open file, `run_file`
//! and `serve_file` in the one at a path. The bank is found, served with a cache of its policy in front, and
//! closed; each hands back what is left of the file.
#![tactic(auto)]

mod actions;
mod faults;
mod listening;
mod serving;

pub use actions::{run_file, serve_file};
pub use counter_connections::{CountedPort, Failures};
pub use listening::listen_in;
pub use serving::serve_in;
