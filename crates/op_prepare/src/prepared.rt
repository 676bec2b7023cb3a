//! What judging a request leads to where no rule denies it: a plan and its reply, or a report.

use bank_books::Plan;
use reports::Contents;

/// What carries a request out: all that it changes, and the text that it is answered.
pub struct Prepared {
    /// The rows that are written, whole or not at all.
    pub plan: Plan,
    /// The bytes of the reply, in JSON.
    pub text: Vec<u8>,
}

/// What carries an operation out: a change with its text, or a report, which was counted and changes
/// nothing.
pub enum Ready {
    /// All that it changes, and the text that it is answered.
    Change(Prepared),
    /// The contents of the report.
    Report(Contents),
}
