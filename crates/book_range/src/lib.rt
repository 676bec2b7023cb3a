//! The first part of the check of the books. `is_in_range` says exactly whether the kept numbers stand
//! beside the rows, each number is within its limits, no key stands twice, and each row names rows that are
//! there. `are_numbered` and `bear_numbers` say exactly whether the rows of a group bear each number from
//! 1 to how many they are. The sums are left to `book_check`.
#![tactic(auto)]

mod beside;
mod named;
mod numbering;
mod numbers;
mod range;
mod range_rows;

pub use numbering::are_numbered;
pub use numbers::{Numbered, bear_numbers};
pub use range::is_in_range;
