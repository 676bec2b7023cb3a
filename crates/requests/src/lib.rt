//! The request that a message states. `Routes::route` answers what the table of paths says of a method and
//! a path, and `stated_request` exactly the request of the definition: what the path asks for, the user whom
//! the `Gate` names for the badge, the session, the slip, the release that an operation names, and what the
//! body states; or the fault M5 or M6. Only memory keeps them from that. Whether a request is allowed is left
//! to `decide`.
#![tactic(auto)]

mod fields;
mod gate;
pub mod laws;
mod routes;
mod stated;

pub use gate::Gate;
pub use routes::{Route, Routes};
pub use stated::stated_request;
