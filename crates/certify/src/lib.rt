//! Plans of the commands of the policy, from a few rows of what each names and adds. `rule_against_command`
//! answers the first of the rules officer, certifier, separation, policy unknown and policy state that
//! denies, or none. `plan_policy` answers that rule, or exactly the change. `laws` says that a policy which
//! is sound and separates stays so after what no rule denies, and that books which hold still hold.
//! `decide` judges identity, and `command_reads` loads the rows.
#![tactic(auto)]

mod command_rows;
mod commands;
pub mod laws;

pub use command_rows::CommandRows;
pub use commands::{plan_policy, rule_against_command};
