//! What each request means in a World: the rules against it in their order, its effect and its reply.
//! `laws` has what holds along every list of requests: when an operation is allowed, who holds the drawer,
//! who may command, that amounts bound what is moved, that checks pass and sums agree,
//! and that the policy is the one by last word. The code here is data alone: `Request`, `Execution`, `Who`,
//! `ReplyKind`. Requests are carried out in `decide`.
#![tactic(auto)]

mod execution;
pub mod laws;
mod leave;
mod opening_rows;
mod release_rows;
mod reply_kind;
mod request;
mod who;

pub use execution::Execution;
pub use leave::Authorization;
pub use opening_rows::OpeningRows;
pub use release_rows::ReleaseRows;
pub use reply_kind::ReplyKind;
pub use request::{Asked, Request};
pub use who::Who;
