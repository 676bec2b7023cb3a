//! The arguments of the program's command line. `read_words` returns the `Action` that the command and its
//! options name, of arguments in which the command line library finds no fault. Its error is memory, a fault
//! of these arguments, or that one is missing. `explain` and `unread` print why there is no action, and
//! return the status for it: 0 for help, 2 for refused arguments, 3 for refused memory.
#![tactic(auto)]

mod commands;
mod explaining;
mod words;

pub use explaining::{REFUSED_WORDS, explain, unread};
pub use words::{Action, read_words};
