//! Releases and slips in SQL tables, with how many slips each user has, inside a transaction. `add_release`
//! and its like add exactly one row. `use_up` marks a release as used and `set_slip_count` writes a user's
//! count, where their key is there. `release_of`, `slip_of` and `slip_count_of` find the row of a key, as
//! `sql_schema` reads it, or none. Every other table stays, and nothing is committed. That a call goes
//! through, and which fault it gives, is not said.
#![tactic(auto)]

mod by_law;
mod releases;
mod slip_counts;
mod slips;

pub use by_law::{Listed, add_by, set_by};
pub use releases::{add_release, release_of, use_up};
pub use slip_counts::{add_slip_count, set_slip_count, slip_count_of};
pub use slips::{add_slip, slip_of};
