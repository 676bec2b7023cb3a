//! Plans written to SQL tables. Where `write_plan` goes through, the tables hold the
//! World that the plan makes of theirs, with every kept number as the rows give it; rows in `KnownRows` are
//! not read, and those left there are of that World. A row that both changes of an operation move is
//! written once. The policy's version rises once where the plan changes it, never past the greatest. Where
//! it fails, contracts say only that nothing is committed.
#![tactic(auto)]

mod book_writes;
mod known;
mod leg_writes;
mod plan_writes;
mod policy_writes;
mod posting_writes;
mod required;
mod version_writes;

pub use known::KnownRows;
pub use plan_writes::write_plan;
pub use policy_writes::write_members;
