//! Rows in order of their keys, as functions on lists. `find_row`, `is_there` and `rows_between` look rows
//! up. `insert_row` adds a row after those of its key and of lower keys. `change_rows` and `remove_rows`
//! act on the rows of one key, and take no memory. All of them keep the order and every other row.
//! `has_distinct_keys`, `has_small_groups` and `are_in_order` judge rows. `sum_of` is exact for any number
//! of rows. What rows mean is said in other crates.
#![tactic(auto)]

mod changes;
mod groups;
mod ordered;
mod sums;

pub use changes::{Change, change_rows, remove_rows};
pub use groups::{Grouped, has_small_groups};
pub use ordered::{
    Keyed, are_in_order, find_row, has_distinct_keys, insert_row, insert_row_reserved, is_there,
    place_of, rows_between,
};
pub use sums::{Tally, sum_of};
