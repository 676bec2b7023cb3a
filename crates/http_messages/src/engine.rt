//! The trait of what answers messages, what it promises of each reply, and why it may give one up.

use crate::message::Message;
use money::{Tallied, WriteStopped};
use std::io::Write;
use thiserror::Error;

/// Why an engine gave up a reply.
#[derive(Clone, Copy, Debug, PartialEq, Eq, Error)]
pub enum AnswerFault {
    /// The writer failed.
    #[error("the writer failed")]
    Write,
    /// The text of a report broke after its head was written.
    #[error("the report broke")]
    Report,
}

impl From<WriteStopped> for AnswerFault {
    ghost use Rattle.std.specs.Prelude.{◌≡◌};
    ghost use Rattle.http_messages.specs.declared.engine.AnswerFault.TheVariants.{Write};

    ghost from_gives = { λ _ fault. fault ≡ Write };

    fn from(_stopped: WriteStopped) -> AnswerFault {
        AnswerFault::Write
    }
}

/// What answers messages.
pub trait Engine {
    ghost use Rattle.std.specs.Prelude.{ℕ, List};
    ghost use Rattle.money.specs.Counted.{stream_of};
    ghost use Rattle.http_messages.specs.Answered.{IsAnswered};
    ghost use Rattle.http_messages.specs.Failures.{CountsByAnswer};
    ghost use Rattle.http_messages.specs.Parts.{MessageParts};

    // From the first engine, the message may be answered by these bytes, which leaves the second.
    ghost answers: { Self → MessageParts → List ℕ → Self → Type 0 };

    // The same of a reply that begins with these bytes. An engine that has its whole reply before it writes takes `answers`.
    ghost stops: { Self → MessageParts → List ℕ → Self → Type 0 };

    // From the first engine, a reply may break after these bytes, which leaves the second. They are all that was written of it.
    ghost breaks: { Self → MessageParts → List ℕ → Self → Type 0 };

    /// Answers a message by one reply, as `Message::reply` writes it.
    fn answer<W: Write>(
        &mut self,
        message: &Message<'_>,
        writer: &mut Tallied<W>,
    ) -> Result<(), AnswerFault>
        ensures answered { IsAnswered answers stops breaks self.old self.new message.now (W.contents (stream_of writer.old)) (W.contents (stream_of writer.new)) result }
        ensures failures { CountsByAnswer writer.old writer.new result };
}
