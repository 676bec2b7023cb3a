//! The row of the bank, branches, tellers, accounts, entries, cash lines and proofs of days in SQL tables,
//! inside a transaction. Reads such as `account_of`, `entry_at` and `roster` return exactly the rows of their
//! key or range, as `sql_schema` reads them. Writes such as `add_entry`, `set_account` and `set_version` leave
//! exactly the rows that they say, and all others. Nothing is committed. That a call goes through, and which
//! fault it gives, is not said.
#![tactic(auto)]

mod accounts;
mod bank;
mod branches;
mod day_proofs;
mod entries;
mod lines;
mod tellers;
mod turns;

pub use accounts::{account_of, add_account, least_account, set_account};
pub use bank::{set_version, version_of};
pub use branches::{add_branch, branch_of, set_branch};
pub use day_proofs::add_proof;
pub use entries::{add_entry, entry_of, is_undone};
pub use lines::add_line;
pub use tellers::{add_teller, next_teller, roster, set_teller, teller_of};
pub use turns::{entries_from, entry_at};
