//! Plans of posts, transfers and corrections, from the rows that they touch. `rule_against_post` and its
//! like answer the first rule of the books that denies, or none, without memory. `plan_post`,
//! `plan_transfer` and `plan_correct` answer that rule, or exactly the changes and what they leave; only
//! memory keeps them from it. `laws` says that books which hold still hold after what no rule denies.
//! `op_prepare` loads the rows.
#![tactic(auto)]

mod branch_parts;
mod correct;
pub mod laws;
mod post;
mod transfer;
mod undo;

pub use correct::{CorrectRows, Corrected, plan_correct, rule_against_correct};
pub use post::{PostRows, Posted, plan_post, rule_against_post};
pub use transfer::{TransferRows, Transferred, plan_transfer, rule_against_transfer};
