//! The rows of a bank with the numbers that a store keeps beside them. `with_entry`, `with_drawer_line`,
//! `with_vault_line`, `with_account` and `with_release` make exactly the rows that a change leaves from
//! those that it names, whatever World these are of; `with_posting` and `with_legs` do so for two changes
//! at once. They answer wherever the changes come next and the old sums are in range. `laws` says that
//! such rows determine their World. They are written by `sql_writes`.
#![tactic(auto)]

mod account;
mod entry;
pub mod laws;
mod legs;
mod lines;
mod posting;
mod records;
mod release;

pub use account::{AccountRows, with_account};
pub use entry::{EntryRows, with_entry};
pub use legs::{LegRows, with_legs};
pub use lines::{LineRows, with_drawer_line, with_vault_line};
pub use posting::with_posting;
pub use records::{KeptTeller, KeptUser, MemberRow, SlipCount};
pub use release::with_release;
