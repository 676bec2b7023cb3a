//! The ten commands of the policy as data. `PolicyOp` has the members of each command, and `Command` its
//! name. `Command::named` finds exactly the command of a name, and `PolicyOp::command` is the command that
//! is asked for. The ranges of the members are defined here. `bodies` reads a command from bytes,
//! and `certify` says which rules deny it and what it changes.
#![tactic(auto)]

mod command;
mod policy_op;

pub use bank_policy::{RelationKey, TripleKey};
pub use command::Command;
pub use policy_op::{Enrolment, PolicyOp, UserKey};
