//! From the bytes of messages to the bytes of replies. A `Counter` owns any store, gate and clock, and answers messages.
//! `serve` answers the messages of a stream, and says for each end which requests were answered, what was written, which calls of
//! the streams failed, and that the store represents the World after them; a request that a fault stopped changed nothing.
#![tactic(auto)]

mod counter;
mod response;
mod sent;
mod service;

pub use counter::{Asking, Clerk, Counter};
pub use counter_clocks::Clock;
pub use http_messages::{ServeFault, Served};
pub use requests::{Gate, Routes};
pub use service::serve;
