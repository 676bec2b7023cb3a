//! Whole writes to a counted stream: all bytes go out, or a beginning of them and one failure is counted.

ghost use Rattle.money.specs.Counted.{Sends, joined};

use crate::tallied::Tallied;
use std::io::Write;

/// A write stopped: the writer answered an error, or took no byte of some. It has counted that failure.
#[derive(Clone, Copy, Debug, PartialEq, Eq, Drop)]
pub struct WriteStopped;

/// Writes all the bytes. The first call that fails, or takes no byte, ends it: then a beginning of them is written,
/// and the writer has counted that one failure. Where it ends well the writer has counted none.
pub fn write_whole<W: Write>(writer: &mut Tallied<W>, bytes: &[u8]) -> Result<(), WriteStopped>
    ensures { Sends W.contents writer.old writer.new bytes.now result }
{
    let mut done = 0;
    while done < bytes.len() {
        match writer.write(&bytes[done..]) {
            Ok(0) => return Err(WriteStopped),
            Ok(n) => done += n,
            Err(_) => return Err(WriteStopped),
        }
    }
    Ok(())
}

/// Writes the parts, one after another, with no bytes between them. It ends as `write_whole` does, with a beginning of
/// all the parts' bytes written where a call fails.
pub fn write_parts<W: Write>(writer: &mut Tallied<W>, parts: &[&[u8]]) -> Result<(), WriteStopped>
    ensures { Sends W.contents writer.old writer.new (joined parts.now) result }
{
    for part in parts {
        match write_whole(writer, part) {
            Ok(()) => {}
            Err(e) => return Err(e),
        }
    }
    Ok(())
}
