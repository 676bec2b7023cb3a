//! The tables of a bank in a schema version, each read whole for `sql_adopt`. `all_accounts`, `all_entries` and
//! the others return every row of a table once, in order of key where the keys differ. A `ReadFault` says why
//! not, and of which table, by the `WholeRow` of its rows. It is refused only where a column holds a value
//! that its type does not have, or for the database itself. Whether the rows are a bank is judged in `sql_adopt`.
#![tactic(auto)]

mod accounts;
mod asking;
mod bank;
mod book_rows;
mod branches;
mod certifiers;
mod day_proofs;
mod entries;
mod fault;
mod lines;
mod members;
mod policy_tables;
mod relations;
mod releases;
mod sets;
mod slip_counts;
mod slips;
mod table_row;
mod tellers;
mod triples;
mod users;

pub use accounts::all_accounts;
pub use asking::ask_tables;
pub use bank::{BankRow, bank_row};
pub use book_rows::{BookRows, HistoryRows, LedgerRows, SlipRows, UserRows, all_book_rows};
pub use branches::all_branches;
pub use certifiers::all_certifiers;
pub use day_proofs::all_proofs;
pub use entries::all_entries;
pub use fault::{ReadFault, Table};
pub use lines::all_lines;
pub use members::all_members;
pub use policy_tables::{GrantRows, PolicyTables, SetRows, all_policy_tables};
pub use relations::all_relations;
pub use releases::all_releases;
pub use sets::all_sets;
pub use slip_counts::all_slip_counts;
pub use slips::all_slips;
pub use tellers::all_tellers;
pub use triples::all_triples;
pub use users::all_users;
