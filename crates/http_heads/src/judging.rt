//! Whether the first bytes of a stream begin with a head, can begin none, are too long, or may still become one.

ghost use Rattle.std.specs.Prelude.{◌≡◌, ◌≤◌, ◌⊎◌, [], length};
ghost use Rattle.http_heads.specs.Stream.{max_head_len, max_fields, EndsLine};
ghost use Rattle.http_heads.specs.Judged.{IsJudged, AreLinesJudged};
ghost use Rattle.http_heads.specs.Seen.{IsSeen};

use crate::lines::{Seen, go_on, lines_end};
use httparse::spans::{HeaderSpan, RequestSpans, parse_request};
use httparse::{Error, Status};

/// The most bytes that a head has.
pub const MAX_HEAD_LEN: usize = 8192;

/// As many fields as a head of that length can have.
pub const MAX_FIELDS: usize = 2731;

/// What the first bytes of a stream are.
#[derive(Clone, Copy, Debug, PartialEq, Eq)]
pub enum Judged {
    /// They begin with a head.
    Head(RequestSpans),
    /// They have a line's end before which no head can begin.
    Malformed,
    /// Neither, in as many bytes as the longest head has.
    TooLong,
    /// Neither yet.
    Waiting,
}

/// Whether whole lines begin with a head, begin one, or can begin none.
fn judge_lines(lines: &[u8], headers: &mut [HeaderSpan]) -> Judged
    requires whole { (lines.now ≡ []) ⊎ EndsLine lines.now }
    requires short { length lines.now ≤ max_head_len }
    requires room { max_fields ≤ length headers.old }
    ensures { AreLinesJudged lines.now headers.new result }
{
    if lines.is_empty() {
        return Judged::Waiting;
    }
    match parse_request(lines, headers) {
        Ok(Status::Complete(head)) => Judged::Head(head),
        Ok(Status::Partial) => Judged::Waiting,
        Err(Error::TooManyHeaders) => unreachable!(),
        Err(_) => Judged::Malformed,
    }
}

/// Judges the first bytes of a stream at the last line feed of the first `MAX_HEAD_LEN`, and writes where the fields of
/// a head are to the front of `headers`. A head, and lines that begin none, stay so whatever bytes follow, and
/// exclude each other; so this is the outcome of a judgement at each line feed.
///
/// So many of the bytes were judged before, and how many are now is kept. Where only further fields came, or further line
/// ends before the start line, these alone are looked at: so a head takes time by its length, in however many pieces it
/// comes. No contract says so.
pub fn judge_from(bytes: &[u8], headers: &mut [HeaderSpan], seen: &mut Seen) -> Judged
    requires room { max_fields ≤ length headers.old }
    requires known { IsSeen bytes.now seen.old }
    ensures judged { IsJudged bytes.now headers.new result }
    ensures kept { IsSeen bytes.now seen.new }
    ensures through { result ≡ Judged.Waiting → seen.new.len ≡ length bytes.now }
{
    let window = &bytes[..bytes.len().min(MAX_HEAD_LEN)];
    let len = lines_end(window, *seen);
    let lines = &bytes[..len];
    let is_short = bytes.len() < MAX_HEAD_LEN;
    if is_short && go_on(lines, headers, *seen) {
        seen.len = bytes.len();
        seen.lines = len;
        return Judged::Waiting;
    }
    match judge_lines(lines, headers) {
        Judged::Head(head) => Judged::Head(head),
        Judged::Malformed => Judged::Malformed,
        Judged::TooLong => unreachable!(),
        Judged::Waiting => {
            if is_short {
                *seen = Seen {
                    len: bytes.len(),
                    lines: len,
                    started: true,
                };
                Judged::Waiting
            } else {
                Judged::TooLong
            }
        }
    }
}
