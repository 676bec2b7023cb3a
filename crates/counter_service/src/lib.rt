//! Serves a stream over any store, to the users of any gate, at one moment. `serve_stream` has the exits of
//! `serve`, answers 1,000,000 messages at most, and hands the store back as that left it.
//! `serve_with_cache` does so with a cache before the store, and hands the store back without it. Where
//! memory is refused at the start, nothing is read, done or written.
#![tactic(auto)]

mod service;

pub use counter_api::{Asking, Gate, ServeFault, Served};
pub use counter_clocks::Moment;
pub use service::{serve_stream, serve_with_cache};
