//! The rows of the policy that a command is judged on, read from any store. `load_command_rows` answers
//! exactly those of the definition, for each of the ten commands, and `standing_of` what the row of a user says
//! of whether they may ask. A fault is the store's. The rules against a command and its change are in `certify`,
//! and who asks is judged in `decide`.
#![tactic(auto)]

mod loads;
mod standing;

pub use loads::load_command_rows;
pub use standing::standing_of;
