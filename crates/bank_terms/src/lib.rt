//! The terms that the policy and the books share: `Kind` and `Cdi` for an item under integrity control,
//! `Procedure`, `Rule`, `OperationRow`, and the limits on numbers and counts. A procedure and a rule have
//! exactly the number and the name of their table, and `Procedure::named` finds exactly the procedure of a
//! name. What a rule asks of a request is said in `bank_meaning`.
#![tactic(auto)]

mod item;
mod limits;
mod operation_row;
mod procedure;
mod rule;

pub use item::{Cdi, Kind};
pub use limits::{
    MAX_ACCOUNTS, MAX_DAY, MAX_KEY, MAX_LIMIT, MAX_LISTED, MAX_MOMENT, MAX_RELATIONS, MAX_RELEASES,
    MAX_SETS, MAX_SLIPS, MAX_TRANSFER, MAX_TRIPLES, MAX_USER, MAX_VERSION, MIN_FLOOR,
};
pub use operation_row::OperationRow;
pub use procedure::Procedure;
pub use rule::Rule;
