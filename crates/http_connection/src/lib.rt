//! A connection over HTTP as one value, which reads and writes nothing. A `Connection` takes the bytes that came, has an `Engine`
//! answer the first message of them that is whole, and holds what is to go out. Whoever has its stream moves the bytes: `serve`
//! does that over a reader and a writer that wait, and counter_loop over many streams at once.
#![tactic(auto)]

mod connection;
mod laws;
mod outbox;
mod progress;
mod serving;

pub use connection::Connection;
pub use laws::always_served;
pub use progress::Progress;
pub use serving::serve;
