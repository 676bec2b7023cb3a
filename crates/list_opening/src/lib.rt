//! The opening lists of a bank, read from bytes. `read_lists` answers exactly the World that the eight lists
//! state, or the list and the number of the first bad record; memory may be refused at any point.
//! `read_badges` does so for the list of badges, and `Badges` finds the user of a badge. Whether the books hold
//! and the policy is sound is not looked at: the checks do that.
#![tactic(auto)]

mod badges;
mod item_sets;
mod list_fault;
mod list_row;
mod opening;
mod reading;
mod rows;
mod set_member;
mod triple_rows;

pub use badges::{Badges, read_badges};
pub use list_fault::{ListFault, ListName};
pub use list_records::RecordFault;
pub use opening::read_lists;
