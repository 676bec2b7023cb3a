//! A port that is bound and announced, one that cannot be announced, and the one address at which a port is bound.
use crate::clients::{LAST_OPENING, got, listening, opened};
use counter_api::Asking;
use counter_clocks::{Fixed, Moment};
use counter_connections::{CountedPort, PortFault, serve_port_with_cache};
use money::Tallied;
use sample_service::{SampleBadges, listed_sample};
use std::io;
use std::io::{ErrorKind, Write};
use std::net::{Ipv4Addr, Net, TcpStream};
use std::test::Fail;

/// How serving `requests` messages at a port ends, with its line written to this writer.
fn ended<W: Write>(
    rt: &HostRuntime,
    port: u16,
    requests: u32,
    output: &mut Tallied<W>,
) -> Result<Result<(), PortFault>, Fail> {
    let alloc = rt.alloc();
    let store = listed_sample(alloc)?;
    let asking = Asking {
        gate: SampleBadges,
        moments: Fixed {
            moment: Moment::cut(700),
        },
    };
    let at = CountedPort { port, requests };
    let (_, _, _, served) = serve_port_with_cache(rt, alloc, at, store, asking, output);
    Ok(served)
}

#[test]
fn port_is_announced_once_it_is_bound(rt: HostRuntime) -> Result<(), Fail> {
    let alloc = rt.alloc();
    let (listener, address) = listening(&rt)?;
    let port = address.port();
    let mut output = Tallied::new(Vec::new(alloc));
    assert!(&rt; ended(&rt, port, 0, &mut output)? == Err(PortFault::Broken));
    drop(listener);
    assert!(&rt; ended(&rt, port, 0, &mut output)? == Ok(()));
    let line = format!(in alloc; "listening {port}\n")?;
    assert!(&rt; output.into_inner().as_slice() == line.as_bytes());
    Ok(())
}

#[test]
fn port_that_cannot_be_announced_is_not_served(rt: HostRuntime) -> Result<(), Fail> {
    let (listener, address) = listening(&rt)?;
    drop(listener);
    let mut room = [0u8; 5];
    let mut output = Tallied::new(room.as_mut_slice());
    assert!(&rt; ended(&rt, address.port(), 0, &mut output)? == Err(PortFault::Broken));
    Ok(())
}

/// A writer that connects to a port once the line that names it is flushed: at 127.0.0.1, and at another address of this
/// machine.
#[derive(Drop)]
struct Connecting<'a> {
    rt: &'a HostRuntime,
    port: u16,
    /// The client at 127.0.0.1, which has asked for a session.
    served: Option<TcpStream>,
    /// Why no client could connect at the other address.
    refused: Option<ErrorKind>,
}

impl Write for Connecting<'_> {
    fn write(&mut self, buf: &[u8]) -> io::Result<usize> {
        Ok(buf.len())
    }

    fn flush(&mut self) -> io::Result<()> {
        let stream = TcpStream::connect(self.rt, (Ipv4Addr::LOCALHOST, self.port))?;
        (&stream).write_all(LAST_OPENING.as_bytes())?;
        self.served = Some(stream);
        self.refused = match TcpStream::connect(self.rt, (Ipv4Addr::new(127, 0, 0, 2), self.port)) {
            Ok(_) => None,
            Err(error) => Some(error.kind()),
        };
        Ok(())
    }
}

#[test]
fn served_port_is_refused_at_every_other_address(rt: HostRuntime) -> Result<(), Fail> {
    let alloc = rt.alloc();
    let (listener, address) = listening(&rt)?;
    drop(listener);
    let mut output = Tallied::new(Connecting {
        rt: &rt,
        port: address.port(),
        served: None,
        refused: None,
    });
    assert!(&rt; ended(&rt, address.port(), 1, &mut output)? == Ok(()));
    let clients = output.into_inner();
    assert!(&rt; clients.refused == Some(ErrorKind::ConnectionRefused));
    let Some(served) = clients.served else {
        return Err(Fail::new(format!(in alloc; "no client was served")?));
    };
    assert!(&rt; got(alloc, &served, opened(alloc, 2, true)?.as_str())?);
    Ok(())
}
