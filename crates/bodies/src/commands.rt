//! The bodies of commands of the policy: a form of a command is a file.
mod certifier;
mod enrolment;
mod item_set;
mod member;
mod named;
mod read;
mod relation;
mod triple;
mod triple_key;
mod user_key;

pub use read::read_command;
