//! The sample bank, as docs/OPERATIONS.md has it. `opened_world` is exactly its opening, row by row, with
//! the books and the policy. `sample_world` is that with the four cash lines of the two drawers that are
//! put on. `badge_user` answers exactly the table of badges. Only memory keeps these from an answer. The
//! checks of the opening are made in `sample_service`.
#![tactic(auto)]

mod badges;
mod opening;
mod policy;

pub use badges::badge_user;
pub use opening::{opened_world, sample_world};
pub use policy::sample_policy;
