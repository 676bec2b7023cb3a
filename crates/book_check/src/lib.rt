//! `check_books` is Ok exactly where the books of a World hold and the numbers kept beside it are those
//! that its rows give. Otherwise it answers the first fault: the range, the sums of tellers, the history,
//! the cash or the totals, with the least branch that fails. Only memory keeps it from an answer. It sorts
//! once and looks up by halving; that this is quick is measured, and not proved.
#![tactic(auto)]

mod amounts;
mod branch_numbers;
mod cash_book;
mod check;
mod history;
mod least;
mod turns;

pub use check::{BooksFault, check_books};
