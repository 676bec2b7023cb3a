//! The lines of the policy, in the order in which they are listed, read from its tables inside a
//! transaction. `policy_rows` answers all of them and `next_policy` the first after a key, exactly as the
//! rows that the tables hold say. Neither changes anything. That a call goes through, and which fault it
//! gives, is not said. The tables themselves are those of `sql_schema`.
#![tactic(auto)]

mod columns;
mod kinds;
mod lists;
mod next;
mod parts;
mod questions;
mod read;
mod selects;

pub use lists::policy_rows;
pub use next::next_policy;
pub use questions::{NextPolicy, PolicyRows};
