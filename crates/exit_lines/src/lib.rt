//! How a program that serves a stream ends. `report_end` returns the status 0 exactly where serving went
//! well, and otherwise 3 after the line of the fault on standard error, which is `line_of`. `show` does so
//! for a text on standard output. A part of a line is missing only where a call of that writer failed. The
//! status of refused arguments is in `cli_words`.
#![tactic(auto)]

mod ends;

pub use ends::{DONE, FAILED, fail, line_of, report_end, show, tell};
pub use http_messages::{ServeFault, Served};
