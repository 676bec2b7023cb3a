//! Connections of the machine, served at once in one process.
use crate::clients::{TESS, TOM, client, got, opened};
use counter_api::{Asking, Counter};
use counter_clocks::{Fixed, Moment};
use counter_door::{Entrance, System};
use counter_loop::{Notices, serve_many};
use mio::net::TcpListener;
use sample_service::{SampleBadges, listed_sample};
use std::net::{Ipv4Addr, SocketAddr};
use std::os::fd::AsRawFd;
use std::os::unix::net::UnixStream;
use std::test::Fail;
use store_rows::ListStore;

/// Nobody, as no store of these tests has a disk.
#[derive(Drop)]
pub(crate) struct Nobody;

impl Notices for Nobody {
    fn disk_failed(&mut self) {}
}

/// The door at any port of the machine, and its address.
fn listening(rt: &HostRuntime) -> Result<(Entrance<TcpListener>, SocketAddr), Fail> {
    let listener = TcpListener::bind(rt, SocketAddr::from((Ipv4Addr::LOCALHOST, 0)))?;
    let address = listener.local_addr()?;
    Ok((Entrance::new(listener), address))
}

/// A counter over lists, with the badges of the sample and a clock that stands.
pub(crate) type Sample = Counter<ListStore, SampleBadges, Fixed>;

/// A counter over the sample bank.
pub(crate) fn sample(rt: &HostRuntime) -> Result<Sample, Fail> {
    let asking = Asking {
        gate: SampleBadges,
        moments: Fixed {
            moment: Moment::cut(700),
        },
    };
    match Counter::new(rt.alloc(), listed_sample(rt.alloc())?, asking) {
        Ok(counter) => Ok(counter),
        Err(_) => Err(Fail::new(format!(in rt.alloc(); "no memory")?)),
    }
}

/// Serves the sample to who waits at a door, until all that has come whole is answered.
fn serve_waiting(rt: &HostRuntime, door: &mut Entrance<TcpListener>) -> Result<(), Fail> {
    let (input, other_side) = UnixStream::pair(rt)?;
    drop(other_side);
    let mut counter = sample(rt)?;
    let until = Some(input.as_raw_fd());
    let mut system = System::new(rt, rt.alloc(), door, until)?;
    let (_parted, done) = serve_many(rt.alloc(), &mut system, door, &mut counter, &mut Nobody);
    done?;
    Ok(())
}

#[test]
fn each_gets_the_replies_to_its_own(rt: HostRuntime) -> Result<(), Fail> {
    let alloc = rt.alloc();
    let (mut door, address) = listening(&rt)?;
    let tess = client(&rt, address, TESS)?;
    let tom = client(&rt, address, TOM)?;
    let silent = client(&rt, address, "")?;
    serve_waiting(&rt, &mut door)?;
    let second = opened(alloc, 2)?;
    assert!(rt; got(alloc, &tess, second.as_str())?);
    assert!(rt; got(alloc, &tom, second.as_str())?);
    assert!(rt; got(alloc, &silent, "")?);
    Ok(())
}

#[test]
fn requests_of_all_are_one_list(rt: HostRuntime) -> Result<(), Fail> {
    let alloc = rt.alloc();
    let (mut door, address) = listening(&rt)?;
    let first = client(&rt, address, TESS)?;
    let second = client(&rt, address, TESS)?;
    let third = client(&rt, address, TESS)?;
    serve_waiting(&rt, &mut door)?;
    // Each opens one session more, in the order in which they were let in.
    assert!(rt; got(alloc, &first, opened(alloc, 2)?.as_str())?);
    assert!(rt; got(alloc, &second, opened(alloc, 3)?.as_str())?);
    assert!(rt; got(alloc, &third, opened(alloc, 4)?.as_str())?);
    Ok(())
}

#[test]
fn many_messages_are_answered_in_their_order(rt: HostRuntime) -> Result<(), Fail> {
    let alloc = rt.alloc();
    let (mut door, address) = listening(&rt)?;
    let mut asked = String::new(alloc);
    let mut replies = String::new(alloc);
    for session in 2..=41 {
        asked.push_str(TESS)?;
        replies.push_str(opened(alloc, session)?.as_str())?;
    }
    let tess = client(&rt, address, asked.as_str())?;
    let tom = client(&rt, address, TOM)?;
    serve_waiting(&rt, &mut door)?;
    assert!(rt; got(alloc, &tess, replies.as_str())?);
    assert!(rt; got(alloc, &tom, opened(alloc, 2)?.as_str())?);
    Ok(())
}

#[test]
fn cut_message_does_nothing(rt: HostRuntime) -> Result<(), Fail> {
    let alloc = rt.alloc();
    let (mut door, address) = listening(&rt)?;
    let cut = client(
        &rt,
        address,
        "POST /session HTTP/1.1\r\nHost: bank\r\nBank-Badge: tess\r\n\r",
    )?;
    let whole = client(&rt, address, TESS)?;
    serve_waiting(&rt, &mut door)?;
    assert!(rt; got(alloc, &cut, "")?);
    assert!(rt; got(alloc, &whole, opened(alloc, 2)?.as_str())?);
    Ok(())
}

#[test]
fn what_begins_no_message_is_refused_alone(rt: HostRuntime) -> Result<(), Fail> {
    let alloc = rt.alloc();
    let (mut door, address) = listening(&rt)?;
    let wrong = client(&rt, address, "no head\r\n\r\n")?;
    let whole = client(&rt, address, TESS)?;
    serve_waiting(&rt, &mut door)?;
    assert!(rt;
        got(
            alloc,
            &wrong,
            "HTTP/1.1 400 Bad Request\r\nContent-Type: application/json\r\nContent-Length: 14\r\nConnection: close\r\n\r\n{\"fault\":\"M1\"}",
        )?
    );
    assert!(rt; got(alloc, &whole, opened(alloc, 2)?.as_str())?);
    Ok(())
}

#[test]
fn reply_that_closes_ends_its_connection_alone(rt: HostRuntime) -> Result<(), Fail> {
    let alloc = rt.alloc();
    let (mut door, address) = listening(&rt)?;
    let closing = client(
        &rt,
        address,
        "POST /session HTTP/1.1\r\nHost: bank\r\nBank-Badge: tess\r\nConnection: close\r\n\r\nPOST /session",
    )?;
    let other = client(&rt, address, TESS)?;
    serve_waiting(&rt, &mut door)?;
    assert!(rt;
        got(
            alloc,
            &closing,
            "HTTP/1.1 200 OK\r\nContent-Type: application/json\r\nContent-Length: 13\r\nConnection: close\r\n\r\n{\"session\":2}",
        )?
    );
    assert!(rt; got(alloc, &other, opened(alloc, 3)?.as_str())?);
    Ok(())
}
