//! Streams of messages in pieces, broken off, and over streams that fail.

use crate::day::{Stream, streams};
use crate::runs::{run, served};
use counter_api::{ServeFault, Served};
use store_rows::{Bank, ListStore};
use test_counter::{Broken, Runtime, listed_bank, pieces, sink, whole_sink};

/// As much at a call as there is.
const ANY: usize = usize::MAX;

/// Asks for this end and these bytes of a run.
fn ends_so(
    rt: &impl Runtime,
    bank: &mut Bank<ListStore>,
    input: (&[u8], &[u8]),
    (end, replies): (Result<Served, ServeFault>, &[u8]),
) {
    let mut writer = whole_sink(rt);
    let given = run(rt, bank, &mut pieces(input, ANY, 0), &mut writer);
    assert!(rt; given == end);
    assert!(rt; writer.into_inner().bytes.as_slice() == replies);
}

/// Asks for the replies to the messages after the first n, over a bank that carried those out. What follows the end of a
/// connection is sent on another.
fn goes_on(rt: &impl Runtime, bank: &mut Bank<ListStore>, stream: &Stream, n: usize) {
    let mut done = n;
    for end in [stream.answered, stream.ends.len()] {
        if done < end {
            let rest = &stream.input[stream.begin_of(done)..];
            let due = (served(end - done), stream.replies(done, end));
            ends_so(rt, bank, (rest, b""), due);
            done = end;
        }
    }
}

#[test]
fn what_comes_in_two_pieces_is_answered_as_in_one(rt: HostRuntime) {
    for stream in streams(&rt).iter() {
        // (before the first byte: all in one piece)
        for cut in 0..stream.input.len() {
            let mut bank = listed_bank(&rt);
            let replies = stream.replies(0, stream.answered);
            let input = stream.input.split_at(cut);
            let due = (served(stream.answered), replies);
            ends_so(&rt, &mut bank, input, due);
        }
    }
}

/// What came whole is done, and what did not is not: sent again, it is answered as if it had not come.
#[test]
fn what_breaks_off_is_done_as_far_as_it_came_whole(rt: HostRuntime) {
    for stream in streams(&rt).iter() {
        for len in 1..stream.begin_of(stream.answered) {
            let whole = stream.whole(len);
            let end = if stream.begin_of(whole) == len {
                served(whole)
            } else {
                Err(ServeFault::Cut)
            };
            let mut bank = listed_bank(&rt);
            let due = (end, stream.replies(0, whole));
            ends_so(&rt, &mut bank, (&stream.input[..len], b""), due);
            goes_on(&rt, &mut bank, stream, whole);
        }
    }
}

#[test]
fn a_read_that_fails_leaves_what_was_read_before(rt: HostRuntime) {
    for stream in streams(&rt).iter() {
        for size in stream.sizes {
            let calls = stream.begin_of(stream.answered).div_ceil(size);
            for call in 1..=calls {
                let whole = stream.whole((call - 1) * size);
                let mut bank = listed_bank(&rt);
                let mut writer = whole_sink(&rt);
                let mut reader = pieces((&stream.input, b""), size, call);
                let given = run(&rt, &mut bank, &mut reader, &mut writer);
                assert!(rt; given == Err(ServeFault::Read), "{size} {call}");
                let replies = writer.into_inner().bytes;
                assert!(rt;
                    replies.as_slice() == stream.replies(0, whole),
                    "{size} {call}"
                );
                goes_on(&rt, &mut bank, stream, whole);
            }
        }
    }
}

/// The writer takes n bytes. The message whose reply broke off was done, and none after it.
#[test]
fn a_write_that_fails_ends_a_stream_after_its_message(rt: HostRuntime) {
    for stream in streams(&rt).iter() {
        for broken in [Broken::Fails, Broken::TakesNone] {
            for n in 0..stream.replies(0, stream.answered).len() {
                let mut bank = listed_bank(&rt);
                let mut writer = sink(&rt, n, broken);
                let mut reader = pieces((&stream.input, b""), ANY, 0);
                let given = run(&rt, &mut bank, &mut reader, &mut writer);
                assert!(rt; given == Err(ServeFault::Write), "{n}");
                assert!(rt;
                    writer.into_inner().bytes.as_slice() == &stream.replies[..n],
                    "{n}"
                );
                let done = stream.reply_ends.iter().filter(|end| **end <= n).count() + 1;
                goes_on(&rt, &mut bank, stream, done);
            }
        }
    }
}

/// The first n bytes of a head that goes on.
fn begun_head(rt: &impl Runtime, n: usize) -> Vec<u8> {
    let mut head = Vec::new(rt.alloc());
    head.extend_from_slice(b"GET /").expect(rt, "memory");
    for _ in head.len()..n {
        head.push(b'a').expect(rt, "memory");
    }
    head
}

const TOO_LONG: &[u8] =
    b"HTTP/1.1 431 Request Header Fields Too Large\r\nContent-Type: application/json\r\nContent-Length: 14\r\nConnection: close\r\n\r\n{\"fault\":\"M2\"}";

#[test]
fn a_head_that_is_too_long_is_reported_at_its_last_byte(rt: HostRuntime) {
    let input = begun_head(&rt, 8_193);
    for cut in 1..input.len() {
        let due = (served(1), TOO_LONG);
        ends_so(&rt, &mut listed_bank(&rt), input.split_at(cut), due);
        let due = if cut < 8_192 {
            (Err(ServeFault::Cut), b"".as_slice())
        } else {
            (served(1), TOO_LONG)
        };
        ends_so(&rt, &mut listed_bank(&rt), (&input[..cut], b""), due);
    }
}
