//! Money in whole cents, and the faults and streams that every crate above shares. `Cents::new`,
//! `Delta::new`, `plus` and `add` are exact, and none exactly out of range. `cents_text` is the text of an
//! amount, in a fixed room. `Tallied` counts each call of a stream that failed. `write_whole`,
//! `write_parts` and `write_cents` write everything, or a beginning, and then count one failure. Sums over
//! rows are in `keyed_rows`.
#![tactic(auto)]

mod cents;
mod fault;
mod sending;
mod tallied;
mod text;

pub use cents::{Cents, Delta, MAX_CENTS, MAX_DELTA, add, plus};
pub use fault::Fault;
pub use sending::{WriteStopped, write_parts, write_whole};
pub use tallied::Tallied;
pub use text::{CENTS_ROOM, CentsText, cents_text, write_cents};
