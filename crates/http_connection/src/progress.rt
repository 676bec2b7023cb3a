//! What a step makes of its connection.

ghost use Rattle.std.specs.Prelude.{◌≡◌};
ghost use Rattle.http_connection.specs.Connection.{closes_by, progress_of};

use http_messages::{AnswerFault, Step};

/// What a step made of its connection.
#[derive(Clone, Copy, Debug, PartialEq, Eq)]
pub enum Progress {
    /// The first message that was held was answered, and more may be whole.
    Answered,
    /// Less than a whole message is held.
    Waits,
    /// Nothing more is answered: the reply to this message ends the connection, or broke off; or what is held begins no message,
    /// and was refused.
    Closes,
}

impl Progress {
    /// Whether nothing more is answered.
    pub(crate) fn closes(self) -> bool
        ensures { result ≡ closes_by self }
    {
        match self {
            Progress::Closes => true,
            Progress::Answered => false,
            Progress::Waits => false,
        }
    }
}

/// What a step that ended so makes of its connection.
pub(crate) fn progress_of(step: Result<Step, AnswerFault>) -> Progress
    ensures { result ≡ progress_of step }
{
    match step {
        Ok(Step::Answered) => Progress::Answered,
        Ok(Step::Waiting) => Progress::Waits,
        Ok(Step::Closed) => Progress::Closes,
        Err(_) => Progress::Closes,
    }
}
