//! Sums of the books by group. `Shares` finds what the parts of a group come to, all of them, up to a
//! number, or at one. `Sums` has the parts of all rows of a World. `Kept` is exactly what a store keeps
//! beside the rows, and `Records` that without the balances after entries. Only memory keeps these from an
//! answer. That they take one sort is not proved. Comparing sums is left to `book_check`.
#![tactic(auto)]

mod groups;
mod holders;
mod kept;
mod parts;
mod records;
mod shares;
mod sums;

pub use groups::rows_of_group;
pub use kept::Kept;
pub use records::Records;
pub use shares::{Part, Parts, Shares};
pub use sums::Sums;
