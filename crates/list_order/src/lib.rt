//! Rows put in order of their keys at once, when all of them are there. `sort_rows` promises the list that comes of writing
//! the rows one by one, each at its place: no key is above one after it, and rows of one key keep the order in which
//! they were. So a list that stands in any order makes the same World as its rows added one by one, by one sort.
#![tactic(auto)]

mod sorting;

pub use sorting::sort_rows;
