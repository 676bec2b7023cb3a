//! The members of an operation as a row of the books holds them: eight numbers, each within the range of its kind, with 0
//! after the last. `in_places` puts numbers in their places, `one` to `six` read them back, and `key`, `number`, `delta`,
//! `cash` and `floor` read a member of a number. What is written is read back, and nothing else is: each has the clauses
//! `some` and `only` of specs/Places.antt. Which members an operation has is in `counter_ops`.
#![tactic(auto)]

mod alone;
mod numbers;
mod places;

pub use alone::{key_alone, places_of_key};
pub use numbers::{cash, delta, floor, key, key_or_zero, number};
pub use places::{five, four, in_places, one, six, three, two};
