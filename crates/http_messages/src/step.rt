//! How a step over the bytes of a connection ends, and the reply to bytes that begin no message.

ghost use Rattle.std.specs.Prelude.{◌≡◌, IfOk, IfErr};
ghost use Rattle.std.specs.Io.KnownBytes.{Appends};
ghost use Rattle.money.specs.Counted.{stream_of, AppendsBeginning};
ghost use Rattle.http_messages.specs.Failures.{CountsByAnswer};
ghost use Rattle.http_messages.specs.Refusal.{refusal_bytes};

use crate::engine::AnswerFault;
use crate::reply::write_reply;
use http_heads::{Framing, MessageFault};
use money::Tallied;
use std::io::Write;

/// How a step left its connection.
#[derive(Clone, Copy, Debug, PartialEq, Eq)]
pub enum Step {
    /// One message was answered, and more may follow.
    Answered,
    /// One message was answered by a reply that ends the connection, or what is held begins none and was refused.
    Closed,
    /// Less than a whole message is held.
    Waiting,
}

/// Writes the reply to a fault that ends the connection.
pub(crate) fn refuse<W: Write>(
    writer: &mut Tallied<W>,
    fault: MessageFault,
    head_only: bool,
) -> Result<Step, AnswerFault>
    ensures ok { IfOk result (λ step. (step ≡ Step.Closed)
        × Appends (W.contents (stream_of writer.old)) (W.contents (stream_of writer.new)) (refusal_bytes fault head_only)) }
    ensures err { IfErr result (λ stopped. (stopped ≡ AnswerFault.Write)
        × AppendsBeginning (W.contents (stream_of writer.old)) (W.contents (stream_of writer.new)) (refusal_bytes fault head_only)) }
    ensures failures { CountsByAnswer writer.old writer.new result }
{
    let framing = Framing {
        close: true,
        head_only,
    };
    match write_reply(
        writer,
        fault.status(),
        "application/json",
        fault.text(),
        framing,
    ) {
        Ok(()) => Ok(Step::Closed),
        Err(_) => Err(AnswerFault::Write),
    }
}
