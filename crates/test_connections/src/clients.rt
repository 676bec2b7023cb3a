//! What clients of a counter send to it, and how they read what it answers.
use std::alloc::Global;
use std::io;
use std::io::Write;
use std::net::{Net, SocketAddr, TcpListener, TcpStream};
use std::test::Fail;

/// The request by which Tess opens a session.
pub(crate) const OPENING: &str = "POST /session HTTP/1.1\r\nHost: bank\r\nBank-Badge: tess\r\n\r\n";

/// The same, and the connection is to end after its reply.
pub(crate) const LAST_OPENING: &str =
    "POST /session HTTP/1.1\r\nHost: bank\r\nBank-Badge: tess\r\nConnection: close\r\n\r\n";

/// A listener at any port of the machine, and its address.
pub(crate) fn listening(rt: &HostRuntime) -> Result<(TcpListener, SocketAddr), Fail> {
    let listener = TcpListener::bind(rt, "127.0.0.1:0")?;
    let address = listener.local_addr()?;
    Ok((listener, address))
}

/// A client that has connected and sent this text.
pub(crate) fn client(rt: &HostRuntime, address: SocketAddr, text: &str) -> Result<TcpStream, Fail> {
    let stream = TcpStream::connect(rt, address)?;
    (&stream).write_all(text.as_bytes())?;
    Ok(stream)
}

/// The reply to the opening of the session of this number, which ends the connection or not. The first is open in the sample.
pub(crate) fn opened(alloc: Global, session: u32, closes: bool) -> Result<String, Fail> {
    let close = if closes { "Connection: close\r\n" } else { "" };
    Ok(format!(in alloc;
        "HTTP/1.1 200 OK\r\nContent-Type: application/json\r\nContent-Length: 13\r\n{close}\r\n{{\"session\":{session}}}"
    )?)
}

/// The replies to the openings of the sessions from the first number to the last, none of which ends the connection.
pub(crate) fn all_opened(alloc: Global, first: u32, last: u32) -> Result<String, Fail> {
    let mut text = String::new(alloc);
    for session in first..=last {
        text.push_str(opened(alloc, session, false)?.as_str())?;
    }
    Ok(text)
}

/// Whether the client got this, and then the end of the connection.
pub(crate) fn got(alloc: Global, client: &TcpStream, text: &str) -> Result<bool, Fail> {
    let all = io::read_to_string(alloc, client)?;
    if all.as_str() != text {
        return Err(Fail::new(format!(in alloc; "got {all:?}, and not {text:?}")?));
    }
    Ok(true)
}
