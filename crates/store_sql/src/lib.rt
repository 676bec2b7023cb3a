//! `SqlStore` is a store over any SQL connection, with the promises of every store. Each read is a
//! `Question` to the tables in a transaction of its own, or answered of a known row. `apply` does a
//! plan whole or nothing; a crash leaves what it could leave before or the World with the
//! plan, and after an answer without a fault that World alone. A fault of the disk stops the store. That
//! calls go through is only tested.
#![tactic(auto)]

mod applying;
mod asking;
mod book_questions;
mod book_reads;
pub mod laws;
mod least_reads;
mod least_rows;
mod policy_questions;
mod policy_reads;
mod report_questions;
mod report_reads;
mod shown_reads;
mod slip_questions;
mod slip_reads;
mod sql_store;
mod teller_rows;

pub use sql_store::SqlStore;
