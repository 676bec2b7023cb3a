//! The reply of a report, whose text goes out row by row after its head.

ghost use Rattle.std.specs.Prelude.{◌≡◌};
ghost use Rattle.money.specs.Counted.{stream_of};
ghost use Rattle.counter_api.specs.Sent.{CountsBreak, CountsBySent, IsStreamed};

use http::StatusCode;
use http_messages::Message;
use money::{Fault, Tallied};
use reports::{Report, ReportFault};
use std::io::Write;
use store_rows::ReportReads;

/// How far the reply of a report went out.
#[derive(Clone, Copy, Debug, PartialEq, Eq)]
pub(crate) enum Sent {
    /// All of it.
    Whole,
    /// A beginning, as the writer failed.
    Stopped,
    /// A beginning, as the store answered this fault.
    Broken(Fault),
}

/// Writes the reply to a message that is answered by a report: its head with the length, and then,
/// where the method is not HEAD, its text, row by row.
pub(crate) fn streamed<'b, S: ReportReads, W: Write>(
    report: Report<'b, S>,
    message: &Message<'_>,
    writer: &mut Tallied<W>,
) -> Sent
    ensures streamed { IsStreamed (S.status report.entry.bank.now.store) (S.status report.exit.0.now.store) (W.contents (stream_of writer.old)) (W.contents (stream_of writer.new)) message.now report.entry.contents result }
    ensures cause { CountsBreak (S.status report.entry.bank.now.store) (S.status report.exit.0.now.store) report.entry.contents result }
    ensures failures { CountsBySent writer.old writer.new result }
{
    match message.reply_head(writer, StatusCode::OK, "text/plain", report.length()) {
        Ok(()) => {}
        Err(_) => {
            report.release();
            return Sent::Stopped;
        }
    }
    if message.asks_head() {
        report.release();
        return Sent::Whole;
    }
    match report.write(writer) {
        Ok(()) => Sent::Whole,
        Err(ReportFault::Write) => Sent::Stopped,
        Err(ReportFault::Store(fault)) => Sent::Broken(fault),
    }
}
