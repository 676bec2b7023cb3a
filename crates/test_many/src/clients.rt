//! What clients of a counter send to it, and how they read what it replies.
use std::alloc::Global;
use std::io;
use std::io::Write;
use std::net::{SocketAddr, TcpStream};
use std::test::Fail;

/// The request by which Tess opens a session.
pub(crate) const TESS: &str = "POST /session HTTP/1.1\r\nHost: bank\r\nBank-Badge: tess\r\n\r\n";

/// That by which Tom does.
pub(crate) const TOM: &str = "POST /session HTTP/1.1\r\nHost: bank\r\nBank-Badge: tom\r\n\r\n";

/// A client that has connected and sent this text.
pub(crate) fn client(rt: &HostRuntime, address: SocketAddr, text: &str) -> Result<TcpStream, Fail> {
    let stream = TcpStream::connect(rt, address)?;
    (&stream).write_all(text.as_bytes())?;
    Ok(stream)
}

/// The reply to the opening of the session of this number. The first of each user is open in the sample.
pub(crate) fn opened(alloc: Global, session: u32) -> Result<String, Fail> {
    let body = format!(in alloc; "{{\"session\":{session}}}")?;
    let length = body.len();
    Ok(format!(in alloc;
        "HTTP/1.1 200 OK\r\nContent-Type: application/json\r\nContent-Length: {length}\r\n\r\n{body}"
    )?)
}

/// Whether the client got this, and then the end of the connection.
pub(crate) fn got(alloc: Global, client: &TcpStream, text: &str) -> Result<bool, Fail> {
    let all = io::read_to_string(alloc, client)?;
    if all.as_str() != text {
        return Err(Fail::new(format!(in alloc; "got {all:?}, and not {text:?}")?));
    }
    Ok(true)
}
