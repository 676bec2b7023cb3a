//! Engines, and what the loop makes of them over a reader and a writer in memory.
use crate::broken_streams::{Sink, sink};
use http::StatusCode;
use http_messages::{AnswerFault, Engine, Message, ServeFault, Served, serve_messages};
use money::Tallied;
use std::io::Write;
use std::process::Abort;
use test_counter::{Pieces, pieces};

/// Answers 200 with the body, or with the target where there is none, and counts what it was asked.
#[derive(Drop)]
struct Echo {
    asked: u32,
}

impl Engine for Echo {
    ghost use Rattle.std.specs.Prelude.{◌≡◌, ℕ, List, codes};
    ghost use Rattle.http_heads.specs.Framing.{closes, asks_head};
    ghost use Rattle.http_messages.specs.Reply.{reply_bytes};

    ghost answers = { λ _ m reply _. (text : List ℕ) × (reply ≡ reply_bytes 200 (codes "text/plain") text (closes m.head) (asks_head m.head)) };

    ghost stops = { λ _ m reply _. (text : List ℕ) × (reply ≡ reply_bytes 200 (codes "text/plain") text (closes m.head) (asks_head m.head)) };

    ghost breaks = { λ _ _ _ _. ⊥ };

    fn answer<W: Write>(
        &mut self,
        message: &Message<'_>,
        writer: &mut Tallied<W>,
    ) -> Result<(), AnswerFault> {
        self.asked = self.asked.saturating_add(1);
        let body = message.body();
        let text = if body.is_empty() {
            message.target()
        } else {
            body
        };
        message.reply(writer, StatusCode::OK, "text/plain", text)?;
        Ok(())
    }
}

/// Answers by the head of a reply alone, which states the length of the longest body, or none to HEAD.
#[derive(Drop)]
struct Heads;

impl Engine for Heads {
    ghost use Rattle.std.specs.Prelude.{◌≡◌, ℕ, List, codes};
    ghost use Rattle.http_heads.specs.Framing.{closes};
    ghost use Rattle.http_messages.specs.Reply.{head_bytes};

    ghost answers = { λ _ m reply _. (len : ℕ) × (reply ≡ head_bytes 200 (codes "text/plain") len (closes m.head)) };

    ghost stops = { λ _ m reply _. (len : ℕ) × (reply ≡ head_bytes 200 (codes "text/plain") len (closes m.head)) };

    ghost breaks = { λ _ _ _ _. ⊥ };

    fn answer<W: Write>(
        &mut self,
        message: &Message<'_>,
        writer: &mut Tallied<W>,
    ) -> Result<(), AnswerFault> {
        let len = if message.asks_head() { 0 } else { u64::MAX };
        message.reply_head(writer, StatusCode::OK, "text/plain", len)?;
        Ok(())
    }
}

/// Writes a reply, and says that it broke.
#[derive(Drop)]
struct Breaking;

impl Engine for Breaking {
    ghost use Rattle.std.specs.Prelude.{◌≡◌, ℕ, List, codes};
    ghost use Rattle.http_heads.specs.Framing.{closes, asks_head};
    ghost use Rattle.http_messages.specs.Reply.{reply_bytes};

    ghost answers = { λ _ m reply _. reply ≡ reply_bytes 200 (codes "text/plain") (codes "half") (closes m.head) (asks_head m.head) };

    ghost stops = { λ _ m reply _. reply ≡ reply_bytes 200 (codes "text/plain") (codes "half") (closes m.head) (asks_head m.head) };

    ghost breaks = { λ _ m reply _. reply ≡ reply_bytes 200 (codes "text/plain") (codes "half") (closes m.head) (asks_head m.head) };

    fn answer<W: Write>(
        &mut self,
        message: &Message<'_>,
        writer: &mut Tallied<W>,
    ) -> Result<(), AnswerFault> {
        message.reply(writer, StatusCode::OK, "text/plain", b"half")?;
        Err(AnswerFault::Report)
    }
}

/// What came of a run.
#[derive(Drop)]
pub struct Outcome {
    pub result: Result<Served, ServeFault>,
    pub asked: u32,
    pub reads: usize,
    pub flushed: usize,
    pub bytes: Vec<u8>,
}

fn in_pieces(input: &[u8], size: usize, fails_at: usize) -> Tallied<Pieces<'_>> {
    pieces((input, b""), size, fails_at)
}

fn to_sink(rt: &impl AllocGlobal, fails_at: usize) -> Tallied<Sink> {
    sink(rt.alloc(), fails_at)
}

/// Serves the input in pieces of a size, at most `most` messages, with a reader and a writer that fail at a call.
pub fn serve(
    rt: &(impl Abort + AllocGlobal),
    input: &[u8],
    size: usize,
    most: u32,
    fails_at: (usize, usize),
) -> Outcome {
    let mut engine = Echo { asked: 0 };
    let mut reader = in_pieces(input, size, fails_at.0);
    let mut writer = to_sink(rt, fails_at.1);
    let result = serve_messages(rt.alloc(), &mut engine, &mut reader, &mut writer, most);
    let sink = writer.into_inner();
    Outcome {
        result,
        asked: engine.asked,
        reads: reader.into_inner().calls,
        flushed: sink.flushed,
        bytes: sink.bytes,
    }
}

const A: &[u8] = b"HTTP/1.1 200 OK\r\nContent-Type: text/plain\r\nContent-Length: 2\r\n\r\n/a";

const AB: &[u8] = b"HTTP/1.1 200 OK\r\nContent-Type: text/plain\r\nContent-Length: 2\r\n\r\n/a\
    HTTP/1.1 200 OK\r\nContent-Type: text/plain\r\nContent-Length: 2\r\n\r\n/b";

/// Two messages. The first is 50 bytes long.
const TWO: &[u8] =
    b"POST /x HTTP/1.1\r\nHost: x\r\nContent-Length: 2\r\n\r\n/aGET /b HTTP/1.1\r\nHost: x\r\n\r\n";

fn ends(rt: &(impl Abort + AllocGlobal), input: &[u8]) {
    let run = serve(rt, input, 9216, 9, (0, 0));
    let asked = if input.len() < 50 { 0 } else { 1 };
    assert!(rt; run.asked == asked);
    let expected = if input.is_empty() || input.len() == 50 {
        Ok(Served { messages: asked })
    } else {
        Err(ServeFault::Cut)
    };
    assert!(rt; run.result == expected, "cut at {}", input.len());
}

/// Bytes after which a message could begin or go on are cut, in one piece or in several.
fn is_cut(rt: &(impl Abort + AllocGlobal), input: &[u8]) {
    for size in [1, 9216] {
        let run = serve(rt, input, size, 9, (0, 0));
        assert!(rt; run.result == Err(ServeFault::Cut));
        assert!(rt; run.bytes.is_empty());
    }
}

/// The input ends after each byte: what is not whole acts not at all.
#[test]
fn streams_that_end(rt: HostRuntime) {
    for len in 0..TWO.len() {
        ends(&rt, &TWO[..len]);
    }
    for cut in [b"\r".as_slice(), b"\r\n\r".as_slice(), b"\x01".as_slice()] {
        is_cut(&rt, cut);
    }
}

fn fails_to_read(rt: &(impl Abort + AllocGlobal), call: usize, flushed: usize, replies: &[u8]) {
    let run = serve(rt, TWO, 60, 9, (call, 0));
    assert!(rt; run.result == Err(ServeFault::Read));
    assert!(rt; run.bytes.as_slice() == replies);
    assert!(rt; run.flushed == flushed);
}

/// A read fails, at each call: the replies before it stand, and each of them was flushed before that read.
#[test]
fn reads_that_fail(rt: HostRuntime) {
    fails_to_read(&rt, 1, 0, b"");
    fails_to_read(&rt, 2, 1, A);
    fails_to_read(&rt, 3, 2, AB);
}

fn fails_to_write(rt: &(impl Abort + AllocGlobal), call: usize) {
    let run = serve(rt, TWO, 9216, 9, (0, call));
    assert!(rt; run.result == Err(ServeFault::Write), "write {call}");
    assert!(rt; AB.starts_with(run.bytes.as_slice()));
}

/// A write or a flush fails, at each call: a beginning of the replies was written. Each reply is ten writes, and a flush
/// follows the second.
#[test]
fn writes_that_fail(rt: HostRuntime) {
    for call in 1..22usize {
        fails_to_write(&rt, call);
    }
}

/// Flushed before the read that may wait and at the end, and not where nothing was written.
#[test]
fn flushes(rt: HostRuntime) {
    for (size, most, flushed) in [(9216, 9, 1), (50, 9, 2), (9216, 1, 1)] {
        assert!(rt; serve(&rt, TWO, size, most, (0, 0)).flushed == flushed);
    }
    assert!(rt; serve(&rt, TWO, 9216, 0, (1, 0)).result == Ok(Served { messages: 0 }));
}

/// Two messages of 28 bytes each.
const TWO_EQUAL: &[u8] = b"GET /a HTTP/1.1\r\nHost: x\r\n\r\nGET /b HTTP/1.1\r\nHost: x\r\n\r\n";

/// None where a whole message is held, and none after the last that is asked for.
#[test]
fn reads_that_may_wait(rt: HostRuntime) {
    for (size, most, reads) in [
        (9216, 0, 0),
        (9216, 1, 1),
        (9216, 2, 1),
        (9216, 3, 2),
        (28, 1, 1),
        (28, 2, 2),
    ] {
        assert!(rt; serve(&rt, TWO_EQUAL, size, most, (0, 0)).reads == reads);
    }
}

#[test]
fn no_read_after_a_reply_that_ends_the_connection(rt: HostRuntime) {
    for last in [
        b"GET /a HTTP/1.0\r\n\r\n".as_slice(),
        b"GET /a HTTP/1.1\r\n\r\n".as_slice(),
    ] {
        assert!(rt; serve(&rt, last, 9216, 9, (0, 0)).reads == 1);
    }
}

/// A reply is ten writes, and the flush follows.
#[test]
fn no_read_after_a_flush_that_fails(rt: HostRuntime) {
    let run = serve(&rt, TWO_EQUAL, 28, 9, (0, 11));
    assert!(rt; run.result == Err(ServeFault::Write));
    assert!(rt; run.reads == 1 && run.asked == 1);
    assert!(rt; run.bytes.as_slice() == A);
}

#[test]
fn heads_of_replies(rt: HostRuntime) {
    let asked = b"GET /a HTTP/1.1\r\nHost: x\r\n\r\nHEAD /a HTTP/1.0\r\n\r\n";
    let mut reader = in_pieces(asked, 9216, 0);
    let mut writer = to_sink(&rt, 0);
    let end = serve_messages(rt.alloc(), &mut Heads, &mut reader, &mut writer, 9);
    assert!(rt; end == Ok(Served { messages: 2 }));
    let heads: &[u8] =
        b"HTTP/1.1 200 OK\r\nContent-Type: text/plain\r\nContent-Length: 18446744073709551615\r\n\r\n\
        HTTP/1.1 200 OK\r\nContent-Type: text/plain\r\nContent-Length: 0\r\nConnection: close\r\n\r\n";
    assert!(rt; writer.into_inner().bytes.as_slice() == heads);
}

fn breaks(rt: &(impl Abort + AllocGlobal), fails_at: usize) {
    let mut reader = in_pieces(TWO_EQUAL, 9216, 0);
    let mut writer = to_sink(rt, fails_at);
    let end = serve_messages(rt.alloc(), &mut Breaking, &mut reader, &mut writer, 9);
    assert!(rt; end == Err(ServeFault::Report));
    let sink = writer.into_inner();
    assert!(rt; sink.calls == 11);
    assert!(rt; sink.bytes.as_slice().ends_with(b"\r\n\r\nhalf"));
}

/// What went out is flushed, and the end is the same where that fails: a reply is ten writes, and the flush follows.
#[test]
fn broken_report(rt: HostRuntime) {
    breaks(&rt, 0);
    breaks(&rt, 11);
}
