//! The bodies of operations: a form of an operation is a file.
mod accounts;
mod balance;
mod close_day;
mod correct;
mod drawer_off;
mod drawer_on;
mod move_cash;
mod new_account;
mod post;
mod proof;
mod read;
mod release;
mod statement;
mod transfer;

pub use read::read_op;
