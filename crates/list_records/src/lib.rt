//! The records of a list in comma-separated values (RFC 4180), read from bytes in memory. `gather` takes the heading, and
//! then each record after it, into whatever implements `Gather`: rows, or badges. It promises what all records together
//! make, or the number of the first bad one, of which the heading is 1, or that memory was refused. No other crate names
//! the library that reads comma-separated values.
#![tactic(auto)]

mod fault;
mod gathering;
mod records;

pub use fault::RecordFault;
pub use gathering::Gather;
pub use records::{gather, is_record};
