//! The end of a connection whose client may have sent more than was read, so that its last reply is not lost.

use crate::limited::Limited;
use counter_limits::MAX_LINGERING;
use std::io::Read;
use std::net::{Shutdown, TcpStream};
use std::time::Duration;
use std::{io, time};

/// Ends a connection on which each reply was written. If its client has sent more, nothing more is written, and that is
/// read and let go, until the client has ended its side, too, or the time is over: were it left unread, the system would
/// break the connection off, and the reply might be lost. What the system refuses of this is passed over.
pub(crate) fn linger<M: time::Clock>(machine: &M, stream: &TcpStream) {
    let _ = drain(machine, stream);
}

/// Reads what has come; if something has, ends the writing, and reads on.
fn drain<M: time::Clock>(machine: &M, mut stream: &TcpStream) -> io::Result<()> {
    let mut room = [0u8; 4_096];
    stream.set_nonblocking(true)?;
    let mut len = stream.read(&mut room)?;
    stream.set_nonblocking(false)?;
    stream.shutdown(Shutdown::Write)?;
    stream.set_read_timeout(Some(Duration::from_secs(MAX_LINGERING)))?;
    let mut rest = Limited::new(stream, machine, MAX_LINGERING);
    for _ in 0..u64::MAX {
        if len == 0 {
            break;
        }
        len = rest.read(&mut room)?;
    }
    Ok(())
}
