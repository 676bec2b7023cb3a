//! The line that says at which place connections are waited for.

ghost use Rattle.money.specs.Counted.{Sends};
ghost use Rattle.counter_places.specs.Places.{line_of, listening_line};

use crate::place::Place;
use itoa::Buffer;
use money::{Tallied, WriteStopped, write_parts};
use std::io::Write;

/// Says where connections are waited for, and flushes that. Where a call fails a beginning of the line is written, which is all
/// of it where that is the flush.
pub fn say_listening<W: Write>(
    output: &mut Tallied<W>,
    place: Place<'_>,
) -> Result<(), WriteStopped>
    ensures { Sends W.contents output.old output.new (listening_line place.entry) result }
{
    match place {
        Place::Port(port) => {
            let mut digits = Buffer::new();
            say(output, digits.format(port).as_bytes())
        }
        Place::Socket(path) => say(output, path.as_bytes()),
        Place::Inherited => say(output, b"inherited"),
    }
}

/// Says so of a place by its name, and flushes that.
fn say<W: Write>(output: &mut Tallied<W>, name: &[u8]) -> Result<(), WriteStopped>
    ensures { Sends W.contents output.old output.new (line_of name.now) result }
{
    write_parts(output, &[b"listening ", name, b"\n"])?;
    match output.flush() {
        Ok(()) => Ok(()),
        Err(_) => Err(WriteStopped),
    }
}
