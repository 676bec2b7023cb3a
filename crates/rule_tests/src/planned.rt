//! The plan of an operation, together with what its reply reports.

use bank_books::Plan;

/// What carries an operation out.
#[derive(Drop)]
pub struct Planned<T> {
    /// The changes that it makes.
    pub plan: Plan,
    /// What it leaves, as its reply reports it: worked out once, for both.
    pub left: T,
}
