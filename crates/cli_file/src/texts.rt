//! Reads the text of a list, up to the most bytes that one may have.

ghost use Rattle.std.specs.Prelude.{IfErr, IfOk};
ghost use Rattle.cli_file.specs.Faults.{IsOfFile};
ghost use Rattle.cli_file.specs.Texts.{IsTextOf};

use crate::fault::ActionFault;
use std::alloc::Global;
use std::io;
use std::io::{ErrorKind, Read};

/// The most bytes of a list.
const MAX_LIST_LEN: u64 = 268_435_456;

/// The bytes that a reader has left, where they are no more than a list may have.
fn bytes_of<R: Read + Drop>(alloc: Global, reader: R) -> io::Result<Vec<u8>>
    ensures { IfOk result (λ bytes. IsTextOf (R.remaining reader) bytes.items) }
{
    let mut bytes = Vec::new(alloc);
    reader.take(MAX_LIST_LEN + 1).read_to_end(&mut bytes)?;
    if bytes.len() as u64 > MAX_LIST_LEN {
        return Err(io::Error::from(ErrorKind::FileTooLarge));
    }
    Ok(bytes)
}

/// The text of a list, which a reader has left.
pub(crate) fn text_of<R: Read + Drop>(
    alloc: Global,
    reader: R,
) -> Result<Vec<u8>, ActionFault<'static>>
    ensures text { IfOk result (λ text. IsTextOf (R.remaining reader) text.items) }
    ensures refused { IfErr result IsOfFile }
{
    match bytes_of(alloc, reader) {
        Ok(bytes) => Ok(bytes),
        Err(error) => Err(ActionFault::of_io(&error)),
    }
}
