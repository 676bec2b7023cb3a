//! The SQL tables of a bank's file. By the SQL port's own reading, the texts that make them give exactly
//! the schema of the definitions. `HoldsWorld` says that tables hold the rows of a World with its kept
//! numbers, and lemmas say what statements on such tables mean. `TableRow` reads a row of each table;
//! `picked` and `listed` answer the first row that a query shows, or all of them. Which fault a bad value
//! gives is not said.
#![tactic(auto)]

mod calls;
mod cells;
mod edition;
mod queries;
mod question;
mod rows;
mod table_row;
mod values;

pub use calls::{commit, run};
pub use cells::{
    cents_at, count_at, count_cell, fault_of, kind_at, kind_number, number_at, procedure_at,
    sum_cell, truth_at, whole_at,
};
pub use edition::Edition;
pub use queries::{listed, picked, plain_rows};
pub use question::Question;
pub use table_row::{TableRow, read_rows};
pub use values::{
    bytes_at, delta_at, entry_form_at, line_form_at, members_of, name_at, slip_members_of, sum_at,
};
