//! A bank made in a SQL database. `make_bank` makes its tables and all rows with their kept numbers, in one
//! transaction. It refuses, in this order, books that do not hold, a policy that is not sound and
//! separated, and a database that is not empty; nothing is committed then. `create` answers the store of
//! the bank, or hands the connection back with the fault. A bank that is there is opened by `sql_adopt`.
#![tactic(auto)]

mod bank_row;
mod checks;
mod creating;
mod filling;
mod making;
mod open_fault;
mod row_kinds;
mod sheet_row;
mod tables;

pub use creating::create;
pub use making::{make_bank, write_bank};
pub use open_fault::OpenFault;
pub use tables::define;
