//! What tests of several crates share, and no test: the sample in lists, what a bank answers to messages by
//! the sample's badges at a moment that stands still, requests for reports and the bytes of replies, a reader
//! that comes in pieces, writers that break after n bytes, a store in lists that reports each call
//! before it is carried out, and one that is shared. Nothing here is proved or used by a program.
#![tactic(auto)]

mod answers;
mod pieces;
mod requests;
mod runtime;
mod shared;
mod sinks;
mod watched;

pub use answers::{Answer, answer, listed_bank, reply, reply_at};
pub use pieces::{Pieces, pieces};
pub use requests::{ASKS_LISTING, ASKS_PROOF, ASKS_STATEMENT, reply_bytes};
pub use runtime::Runtime;
pub use shared::Shared;
pub use sinks::{Broken, Sink, sink, whole_sink};
pub use watched::{Read, Watch, Watched};
