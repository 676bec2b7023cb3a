//! Messages that come byte by byte: they are answered as in one piece, a fault is reported after the byte that shows
//! it, and the processor's time is in proportion to their length.
use crate::message_streams::serve;
use http_messages::Served;
use std::process::Abort;
use std::time::{CpuClock, Duration};

/// A head of `len` bytes, which ends with a field. It states no body, or the longest.
fn head(rt: &(impl Abort + AllocGlobal), len: usize, states_body: bool) -> Vec<u8> {
    let mut head = Vec::new(rt.alloc());
    let line: &[u8] = if states_body {
        b"POST /a HTTP/1.1\r\nHost: x\r\nContent-Length: 1024\r\nNote: "
    } else {
        b"POST /a HTTP/1.1\r\nHost: x\r\nNote: "
    };
    head.extend_from_slice(line).expect(rt, "memory");
    for _ in 0..len {
        head.push(b'x').expect(rt, "memory");
    }
    head.extend_from_slice(b"\r\n\r\n").expect(rt, "memory");
    head
}

/// Such a head, and the longest body, of line ends.
fn message(rt: &(impl Abort + AllocGlobal), len: usize) -> Vec<u8> {
    let mut message = head(rt, len, true);
    for _ in 0..1024 {
        message.push(b'\n').expect(rt, "memory");
    }
    message
}

#[test]
fn answered_as_in_one_piece(rt: HostRuntime) {
    for len in [0usize, 100, 8_000] {
        let message = message(&rt, len);
        let whole = serve(&rt, &message, 9216, 1, (0, 0));
        let single = serve(&rt, &message, 1, 1, (0, 0));
        assert!(rt; whole.reads == 1 && single.reads == message.len());
        assert!(rt; whole.result == Ok(Served { messages: 1 }));
        assert!(rt; single.result == whole.result);
        assert!(rt; single.bytes.as_slice() == whole.bytes.as_slice());
    }
}

/// No byte is read after the line end that shows it.
#[test]
fn a_fault_is_reported_where_its_line_ends(rt: HostRuntime) {
    for (input, reads) in [
        (b"hello\r\nGET /a HTTP/1.1\r\n".as_slice(), 7),
        (b"GET /a HTTP/1.1\nHost: x\nno field\n\n".as_slice(), 33),
        (b"\r\n\nGET /a HTTP/2.0\r\n\r\n".as_slice(), 20),
        (b"GET /a HTTP/1.1\r\n\r\n\r\n".as_slice(), 19),
    ] {
        let run = serve(&rt, input, 1, 9, (0, 0));
        assert!(rt; run.result == Ok(Served { messages: 1 }) && run.asked == 0);
        assert!(rt; run.reads == reads, "{reads}");
    }
}

#[test]
fn a_head_that_is_too_long_is_reported_at_the_longest(rt: HostRuntime) {
    let run = serve(&rt, &head(&rt, 9_000, false), 1, 9, (0, 0));
    assert!(rt; run.result == Ok(Served { messages: 1 }) && run.asked == 0);
    assert!(rt; run.reads == 8192);
}

/// The least time that the processor worked for a message.
fn time_of(rt: &(impl Abort + AllocGlobal + CpuClock), message: &[u8]) -> Duration {
    let mut least = Duration::MAX;
    for _ in 0..5 {
        let before = rt.process_cpu_time().expect(rt, "the clock");
        let run = serve(rt, message, 1, 1, (0, 0));
        let after = rt.process_cpu_time().expect(rt, "the clock");
        assert!(rt; run.asked == 1);
        least = least.min(after.saturating_sub(before));
    }
    least
}

/// Eight times the length takes some eight times as long. It would be 64 where each byte had the head judged again.
#[test]
fn a_long_head_takes_time_by_its_length(rt: HostRuntime) {
    let short = time_of(&rt, &head(&rt, 1_000, false));
    let long = time_of(&rt, &head(&rt, 8_000, false));
    assert!(rt; long / 24 < short);
}

/// The body is an eighth of the whole. It would be most of the time where each of its bytes had the head judged again.
#[test]
fn a_body_after_a_long_head_takes_time_by_its_length(rt: HostRuntime) {
    let alone = time_of(&rt, &head(&rt, 8_000, false));
    let with_body = time_of(&rt, &message(&rt, 8_000));
    assert!(rt; with_body / 3 < alone);
}
