//! Reads the body of a request as what its bytes state: `read_op` as one of the thirteen operations, with the
//! one inside a release, `read_command` as one of the ten commands of the policy. Each answers exactly where
//! the bytes are a JSON object with exactly the members of the form, each in its range, and nothing
//! otherwise. The only error is refused memory, which an empty body never meets. The value of a JSON text is
//! what `serde_json` says.
#![tactic(auto)]

mod commands;
pub mod laws;
mod members;
mod operations;

pub use commands::read_command;
pub use members::{is_object_of, key, moment, natural};
pub use operations::read_op;
