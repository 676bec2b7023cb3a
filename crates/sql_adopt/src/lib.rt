//! Finds a bank in a SQL database. `read_bank` goes through only where the tables of a schema version hold a
//! World with its kept numbers, whose books hold and whose policy is sound and separated, and refuses such a bank
//! for a database fault alone; `read_older_bank` does so in the older schema version that its row names.
//! Nothing is changed. `adopt` returns the store of a bank of the newest schema version, or hands the connection
//! back with the fault.
#![tactic(auto)]

mod adopt_fault;
mod adopting;
mod bank_rows;
mod counts;
mod item_sets;
mod judging;
pub mod laws;
mod made;
mod older;
mod opening;
mod reading;
mod whole_policy;

pub use adopt_fault::AdoptFault;
pub use adopting::{adopt_bank, adopt_rows, read_bank};
pub use bank_rows::BankRows;
pub use older::{OlderBank, read_older_bank};
pub use opening::adopt;
