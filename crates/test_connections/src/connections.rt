//! Connections of the machine, served in one process: what each client gets, and how many messages are counted.
use crate::clients::{LAST_OPENING, OPENING, all_opened, client, got, listening, opened};
use crate::clocks::ScriptedClock;
use counter_api::{Asking, Counter};
use counter_clocks::{Fixed, Moment};
use counter_connections::{CountedListener, serve_connections};
use sample_service::{SampleBadges, listed_sample};
use std::io::Read;
use std::net::{Shutdown, TcpListener};
use std::test::Fail;
use std::time;
use std::time::Duration;
use store_rows::ListStore;

/// A counter over lists, with the badges of the sample and a clock that stands.
type Sample = Counter<ListStore, SampleBadges, Fixed>;

/// A counter over the sample bank.
fn sample(rt: &HostRuntime) -> Result<Sample, Fail> {
    let asking = Asking {
        gate: SampleBadges,
        moments: Fixed {
            moment: Moment::cut(700),
        },
    };
    match Counter::new(rt.alloc(), listed_sample(rt.alloc())?, asking) {
        Ok(counter) => Ok(counter),
        Err(_) => Err(Fail::new(format!(in rt.alloc(); "no memory")?)),
    }
}

/// Serves all connections: whether to the end, and how many could not be accepted.
fn serve_all<M: time::Clock>(
    machine: &M,
    listener: TcpListener,
    counter: &mut Sample,
    requests: u32,
) -> (bool, u64) {
    let mut listener = CountedListener::new(listener);
    let result = serve_connections(machine, &mut listener, counter, requests);
    (result.is_ok(), listener.failures().accepts())
}

#[test]
fn two_connections_one_after_the_other(rt: HostRuntime) -> Result<(), Fail> {
    let alloc = rt.alloc();
    let mut counter = sample(&rt)?;
    let (listener, address) = listening(&rt)?;
    let mut listener = CountedListener::new(listener);
    for session in [2, 3] {
        let stream = client(&rt, address, LAST_OPENING)?;
        serve_connections(&rt, &mut listener, &mut counter, 1)?;
        assert!(&rt; got(alloc, &stream, opened(alloc, session, true)?.as_str())?);
    }
    Ok(())
}

#[test]
fn connection_without_message_counts_one(rt: HostRuntime) -> Result<(), Fail> {
    let alloc = rt.alloc();
    let mut counter = sample(&rt)?;
    let (listener, address) = listening(&rt)?;
    drop(client(&rt, address, "")?);
    drop(client(&rt, address, "\r\n\r\n")?);
    let stream = client(&rt, address, LAST_OPENING)?;
    assert!(&rt; serve_all(&rt, listener, &mut counter, 3) == (true, 0));
    assert!(&rt; got(alloc, &stream, opened(alloc, 2, true)?.as_str())?);
    Ok(())
}

#[test]
fn messages_before_a_fault_count_one(rt: HostRuntime) -> Result<(), Fail> {
    let alloc = rt.alloc();
    let mut counter = sample(&rt)?;
    let (listener, address) = listening(&rt)?;
    let cut = client(
        &rt,
        address,
        format!(in alloc; "{OPENING}{OPENING}{OPENING}POST /session HT")?.as_str(),
    )?;
    cut.shutdown(Shutdown::Write)?;
    let stream = client(
        &rt,
        address,
        format!(in alloc; "{OPENING}{OPENING}{OPENING}{OPENING}")?.as_str(),
    )?;
    assert!(&rt; serve_all(&rt, listener, &mut counter, 4) == (true, 0));
    let replies = all_opened(alloc, 2, 4)?;
    assert!(&rt; got(alloc, &cut, replies.as_str())?);
    let replies = all_opened(alloc, 5, 7)?;
    assert!(&rt; got(alloc, &stream, replies.as_str())?);
    Ok(())
}

#[test]
fn no_more_replies_than_are_wanted(rt: HostRuntime) -> Result<(), Fail> {
    let alloc = rt.alloc();
    let mut counter = sample(&rt)?;
    let (listener, address) = listening(&rt)?;
    let stream = client(
        &rt,
        address,
        format!(in alloc; "{OPENING}{OPENING}{OPENING}")?.as_str(),
    )?;
    assert!(&rt; serve_all(&rt, listener, &mut counter, 2) == (true, 0));
    let replies = all_opened(alloc, 2, 3)?;
    assert!(&rt; got(alloc, &stream, replies.as_str())?);
    Ok(())
}

#[test]
fn connection_that_cannot_be_accepted_ends_it(rt: HostRuntime) -> Result<(), Fail> {
    let alloc = rt.alloc();
    let mut counter = sample(&rt)?;
    let (listener, address) = listening(&rt)?;
    listener.set_nonblocking(true)?;
    let stream = client(&rt, address, LAST_OPENING)?;
    assert!(&rt; serve_all(&rt, listener, &mut counter, 2) == (false, 1));
    assert!(&rt; got(alloc, &stream, opened(alloc, 2, true)?.as_str())?);
    Ok(())
}

/// How many bytes a client gets where the machine's running clock reads so, and how often it was read.
fn got_by_clock(rt: &HostRuntime, readings: &[Option<Duration>]) -> Result<(usize, usize), Fail> {
    let mut counter = sample(rt)?;
    let (listener, address) = listening(rt)?;
    let stream = client(rt, address, LAST_OPENING)?;
    let machine = ScriptedClock::new(readings);
    serve_all(&machine, listener, &mut counter, 1);
    let mut room = [0u8; 1_000];
    // (a client whose connection is dropped unread gets an error, and no byte)
    let len = (&stream).read(&mut room).unwrap_or(0);
    Ok((len, machine.read.get()))
}

#[test]
fn connection_that_lasts_too_long_is_let_go(rt: HostRuntime) -> Result<(), Fail> {
    let reply = opened(rt.alloc(), 2, true)?.len();
    let start = Some(Duration::from_secs(1_000));
    let at = |millis: u64| Some(Duration::from_millis(1_000_000u64.saturating_add(millis)));
    // The clock is read for both ends, and then before each read and each write.
    assert!(&rt; got_by_clock(&rt, &[start, start, start, start])? == (reply, 4));
    assert!(&rt; got_by_clock(&rt, &[start, start, at(119_999), at(179_999)])? == (reply, 4));
    assert!(&rt; got_by_clock(&rt, &[start, start, at(120_000)])? == (0, 3));
    assert!(&rt; got_by_clock(&rt, &[start, start, at(119_999), at(180_000)])? == (0, 4));
    // A clock that can't be read lets it go, too.
    assert!(&rt; got_by_clock(&rt, &[start, start, None])? == (0, 3));
    assert!(&rt; got_by_clock(&rt, &[None, start])? == (0, 3));
    Ok(())
}

/// How many reads and writes failed of a client where the machine's running clock reads so.
fn failed_by_clock(rt: &HostRuntime, readings: &[Option<Duration>]) -> Result<(u64, u64), Fail> {
    let mut counter = sample(rt)?;
    let (listener, address) = listening(rt)?;
    let stream = client(rt, address, LAST_OPENING)?;
    let machine = ScriptedClock::new(readings);
    let mut listener = CountedListener::new(listener);
    serve_connections(&machine, &mut listener, &mut counter, 1)?;
    drop(stream);
    let calls = listener.failures().calls();
    Ok((calls.reads(), calls.writes()))
}

#[test]
fn reads_and_writes_that_failed_are_counted(rt: HostRuntime) -> Result<(), Fail> {
    let start = Some(Duration::from_secs(1_000));
    let late = Some(Duration::from_secs(1_180));
    assert!(&rt; failed_by_clock(&rt, &[start, start, start, start])? == (0, 0));
    assert!(&rt; failed_by_clock(&rt, &[start, start, late])? == (1, 0));
    assert!(&rt; failed_by_clock(&rt, &[start, start, start, late])? == (0, 1));
    Ok(())
}
