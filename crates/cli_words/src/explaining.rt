//! What is printed where arguments name no action, and the status of the program then.

ghost use Rattle.cli_words.specs.Explained.{IsExplained, IsUnread};
ghost use Rattle.exit_lines.specs.Streams.{stream_at};

use clap::Error;
use clap::error::ErrorKind;
use exit_lines::{ServeFault, fail, show, tell};
use money::Tallied;
use std::alloc::Global;
use std::io;
use std::io::Write;

/// The status of a program whose arguments are refused.
pub const REFUSED_WORDS: u8 = 2;

/// Prints why arguments name no action, and returns the status: `DONE` for help, `REFUSED_WORDS` where they are
/// refused, and `FAILED` where memory is, or help can't be written. Help goes to `output`, and all else to `errors`.
pub fn explain<W: Write, E: Write>(
    alloc: Global,
    error: &Error,
    output: &mut Tallied<W>,
    errors: &mut Tallied<E>,
) -> u8
    ensures { IsExplained error.now
        (stream_at W.contents output.old) (stream_at W.contents output.new)
        (stream_at E.contents errors.old) (stream_at E.contents errors.new) result }
{
    if error.kind() == ErrorKind::OutOfMemory {
        return fail(errors, ServeFault::Memory);
    }
    let Ok(text) = format!(in alloc; "{error}") else {
        return fail(errors, ServeFault::Memory);
    };
    if error.use_stderr() {
        tell(errors, text.as_str());
        REFUSED_WORDS
    } else {
        show(output, errors, text.as_str())
    }
}

/// Prints why the arguments could not be read: one is not UTF-8, or memory is refused for them. Returns the status.
pub fn unread<E: Write>(errors: &mut Tallied<E>, kind: io::ErrorKind) -> u8
    ensures { IsUnread kind (stream_at E.contents errors.old) (stream_at E.contents errors.new) result }
{
    if kind == io::ErrorKind::InvalidData {
        tell(errors, "error: an argument is not UTF-8\n");
        REFUSED_WORDS
    } else {
        fail(errors, ServeFault::Memory)
    }
}
