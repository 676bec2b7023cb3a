//! The statuses that a program ends with, and the lines on standard error that go with them.

ghost use Rattle.std.specs.Prelude.{◌≡◌};
ghost use Rattle.money.specs.Counted.{Sends};
ghost use Rattle.exit_lines.specs.Ends.{IsFailed, IsShown, IsReported};
ghost use Rattle.exit_lines.specs.Lines.{line, text_of};
ghost use Rattle.exit_lines.specs.Streams.{IsWritten, stream_at};

use http_messages::{ServeFault, Served};
use money::{Tallied, WriteStopped, write_whole};
use std::io::Write;

/// The status of a program that did what it was asked for.
pub const DONE: u8 = 0;

/// The status of a program that was kept from it by a file, a stream, a place, or want of memory.
pub const FAILED: u8 = 3;

/// Writes a text to standard output and flushes it, and returns `DONE`; or where it can't be written whole, or the
/// flush fails, `FAILED`, after the line of a broken stream.
pub fn show<W: Write, E: Write>(output: &mut Tallied<W>, errors: &mut Tallied<E>, text: &str) -> u8
    ensures { IsShown (stream_at W.contents output.old) (stream_at W.contents output.new)
        (stream_at E.contents errors.old) (stream_at E.contents errors.new) text.now result }
{
    match send(output, text) {
        Ok(()) => DONE,
        Err(_) => fail(errors, ServeFault::Write),
    }
}

/// Writes a text whole, and then flushes. Where a call fails a beginning of the text is written, which is all of it
/// where that is the flush.
fn send<W: Write>(output: &mut Tallied<W>, text: &str) -> Result<(), WriteStopped>
    ensures { Sends W.contents output.old output.new text.now result }
{
    write_whole(output, text.as_bytes())?;
    match output.flush() {
        Ok(()) => Ok(()),
        Err(_) => Err(WriteStopped),
    }
}

/// Says what failed, and answers the status for it.
pub fn fail<E: Write>(errors: &mut Tallied<E>, fault: ServeFault) -> u8
    ensures { IsFailed fault (stream_at E.contents errors.old) (stream_at E.contents errors.new) result }
{
    tell(errors, line_of(fault));
    FAILED
}

/// Writes a text to standard error. What can't be written of it is left out.
pub fn tell<E: Write>(errors: &mut Tallied<E>, text: &str)
    ensures { IsWritten (stream_at E.contents errors.old) (stream_at E.contents errors.new) text.now }
{
    let _ = write_whole(errors, text.as_bytes());
}

/// What standard error says of a fault, its line end included.
pub fn line_of(fault: ServeFault) -> &'static str
    ensures { result.now ≡ line (text_of fault) }
{
    match fault {
        ServeFault::Cut => "stream: cut\n",
        ServeFault::Memory => "memory\n",
        ServeFault::Read | ServeFault::Write | ServeFault::Report => "stream: broken\n",
    }
}

/// Reports how serving a stream ended, and returns the status for it: `DONE` exactly where that went well, otherwise
/// `FAILED` after the line of the fault.
pub fn report_end<E: Write>(errors: &mut Tallied<E>, served: Result<Served, ServeFault>) -> u8
    ensures { IsReported served (stream_at E.contents errors.old) (stream_at E.contents errors.new) result }
{
    match served {
        Ok(_) => DONE,
        Err(fault) => fail(errors, fault),
    }
}
