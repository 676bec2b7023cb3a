//! An entry of the cache: its key, and rows of the policy with the version at which they were read.

use bank_policy::{CertifiedRow, HeldRow};
use bank_terms::Procedure;
use std::rc::RcSlice;

/// Whose rows of the policy, and for what.
#[derive(Clone, Copy, Debug, PartialEq, Eq, Hash)]
pub struct Key {
    /// The user whose triples they are, 1 to 9,999, or 0 for the relations of the procedure.
    pub user: u32,
    /// The procedure of the rows.
    pub procedure: Procedure,
}

/// Rows of the policy, each with the members of its set. They are shared, and never copied.
#[derive(Debug, Drop)]
pub enum Rows {
    /// The triples of a user for a procedure.
    Triples(RcSlice<HeldRow>),
    /// The relations of a procedure.
    Relations(RcSlice<CertifiedRow>),
}

/// Rows as they were read at a version of the policy.
#[derive(Debug, Drop)]
pub struct Kept {
    /// The version, 0 to 999,999,999,999.
    pub version: u64,
    /// The rows.
    pub rows: Rows,
}
