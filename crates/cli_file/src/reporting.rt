//! How the end of an action is reported: its line, the stream that gets it, and the exit status.

ghost use Rattle.exit_lines.specs.Streams.{stream_at};
ghost use Rattle.cli_file.specs.Telling.{IsEnded, IsFaultReported, IsRefusalReported, IsSaid};

use crate::fault::ActionFault;
use arrayvec::ArrayString;
use exit_lines::{DONE, FAILED, show, tell};
use money::Tallied;
use std::fmt::Write as _;
use std::io::Write;

/// The status of a program that refuses books, a policy, lists or a year that were handed in.
pub const REFUSED: u8 = 1;

/// Room for the line of any fault, in bytes: below 100, and the path of a list, which the system keeps below 4,096.
const LINE_ROOM: usize = 4_224;

/// Says that an action was done, by this line on standard output, or why it was not; and answers the status.
pub fn say_done<W: Write, E: Write>(
    done: Result<(), ActionFault<'_>>,
    line: &str,
    output: &mut Tallied<W>,
    errors: &mut Tallied<E>,
) -> u8
    ensures { IsSaid done.entry line.now
        (stream_at W.contents output.old) (stream_at W.contents output.new)
        (stream_at E.contents errors.old) (stream_at E.contents errors.new) result }
{
    match done {
        Ok(()) => show(output, errors, line),
        Err(fault) => report_fault(fault, output, errors),
    }
}

/// Reports why an action failed, if it did, and answers the status.
pub fn end<W: Write, E: Write>(
    done: Result<(), ActionFault<'_>>,
    output: &mut Tallied<W>,
    errors: &mut Tallied<E>,
) -> u8
    ensures { IsEnded done.entry
        (stream_at W.contents output.old) (stream_at W.contents output.new)
        (stream_at E.contents errors.old) (stream_at E.contents errors.new) result }
{
    match done {
        Ok(()) => DONE,
        Err(fault) => report_fault(fault, output, errors),
    }
}

/// Reports a fault by its line: a refusal on standard output, with status 1, and every other on standard error, with
/// status 3. It takes no memory.
fn report_fault<W: Write, E: Write>(
    fault: ActionFault<'_>,
    output: &mut Tallied<W>,
    errors: &mut Tallied<E>,
) -> u8
    ensures { IsFaultReported fault.entry
        (stream_at W.contents output.old) (stream_at W.contents output.new)
        (stream_at E.contents errors.old) (stream_at E.contents errors.new) result }
{
    let mut line: ArrayString<LINE_ROOM> = ArrayString::new();
    let _ = writeln!(line, "{fault}");
    if fault.is_refusal() {
        return refuse(output, errors, line.as_str());
    }
    tell(errors, line.as_str());
    FAILED
}

/// Shows the line of a refusal, and answers the status. Where a call of standard output fails, that is a broken stream.
fn refuse<W: Write, E: Write>(output: &mut Tallied<W>, errors: &mut Tallied<E>, line: &str) -> u8
    ensures { IsRefusalReported (stream_at W.contents output.old) (stream_at W.contents output.new)
        (stream_at E.contents errors.old) (stream_at E.contents errors.new) line.now result }
{
    match show(output, errors, line) {
        DONE => REFUSED,
        failed => failed,
    }
}
