//! What the fields of a list state: numbers in decimal within a range, amounts in cents, yes or no, and the names of
//! procedures, of kinds of items and of users; and whether a field may be a badge. Each function takes the bytes of one
//! field. It promises the value that the field states, or none exactly where the field is not of that form or the value not
//! in its range. None of them takes memory.
#![tactic(auto)]

mod names;
mod numbers;

pub use names::{flag_of, is_badge, is_name, kind_named, name_of, procedure_named};
pub use numbers::{amount_of, number_in, number_up_to};
