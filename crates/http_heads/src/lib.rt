//! Heads of HTTP/1.1 messages, by the grammar of `httparse`. `judge_from` says exactly whether bytes, which
//! may come piece by piece, begin with a head, can begin none, are too long, or may still become one. `Head`
//! has the method, the target and the fields; `find_field` ignores letter case. `Head::body_len` is the
//! length of the body, 1,024 at most, or the least fault. `closes` and `framing` say how the reply ends.
#![tactic(auto)]

mod blank;
mod fault;
mod fields;
mod framing;
mod head;
mod judging;
mod length;
mod lines;
mod words;

pub use blank::are_line_ends;
pub use fault::MessageFault;
pub use fields::{Found, find_field};
pub use framing::Framing;
pub use head::{Head, MAX_BODY_LEN};
pub use judging::{Judged, MAX_FIELDS, MAX_HEAD_LEN, judge_from};
pub use lines::Seen;
