//! What a store answers of a World, by definition: a user with their counts, a release, the tellers of a
//! branch, a drawer, a vault, entries by number or by turn, the accounts that a user is shown, the lines of
//! the policy. Each function answers exactly that. Only memory keeps those from it that make a list or look
//! for the next account or line. `laws` says how these reads agree. Stores are in `store_rows`.
#![tactic(auto)]

mod accounts;
mod entries;
pub mod laws;
mod listing;
mod next_line;
mod places;
mod policy_reads;
mod policy_row;
mod records;
mod slips;

pub use accounts::{next_shown, shown};
pub use entries::{entries_of, entry, entry_at, undone};
pub use listing::policy_rows;
pub use next_line::next_policy;
pub use places::{drawer, next_teller, roster, vault};
pub use policy_reads::{is_certifier, is_set, release, set_count, triple_count, user_record};
pub use policy_row::{PolicyKey, PolicyRow, SetMember};
pub use records::{DrawerRecord, UserRecord};
pub use slips::{slip, slip_count};
