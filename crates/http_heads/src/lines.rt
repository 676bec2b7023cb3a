//! How far the lines of a head were judged, so that only further ones are looked at while the head is awaited.

ghost use Rattle.std.specs.Prelude.{◌≡◌, ◌⊎◌, ◌↔◌, ℕ, ◌-◌, ◌<◌, ◌≤◌, List, [], length, take, drop, get_or, IsTrue};
ghost use Rattle.http_heads.specs.Seen.{AreFirstLines, EndNoLine, IsSeen};
ghost use Rattle.http_heads.specs.Stream.{max_head_len, max_fields, EndsLine};

use crate::blank::are_line_ends;
use httparse::Status;
use httparse::spans::{HeaderSpan, parse_headers_from};

/// How far bytes were judged that are no head yet, and can become one.
#[derive(Clone, Copy, Debug, PartialEq, Eq)]
pub struct Seen {
    /// How many bytes were judged.
    pub(crate) len: usize,
    /// How many of them are whole lines. No line ended after these.
    pub(crate) lines: usize,
    /// Whether a start line is among the lines. Else they are line ends alone.
    pub(crate) started: bool,
}

impl Seen {
    /// No bytes were judged.
    pub fn nothing() -> Seen
        ensures { (bytes : List ℕ) → IsSeen bytes result }
    {
        Seen {
            len: 0,
            lines: 0,
            started: false,
        }
    }
}

/// How many bytes there are through the last line feed. Those that were seen are not looked at again.
pub(crate) fn lines_end(bytes: &[u8], seen: Seen) -> usize
    requires { IsSeen bytes.now seen }
    ensures within { (seen.lines ≤ result) × (result ≤ length bytes.now) }
    ensures line { seen.lines < result → get_or bytes.now (result - 1) 0 ≡ 10 }
    ensures after { EndNoLine bytes.now result (length bytes.now) }
{
    let mut end = bytes.len();
    while end > seen.len && bytes[end - 1] != b'\n' {
        end -= 1;
    }
    if end > seen.len { end } else { seen.lines }
}

/// Whether all of the lines are first lines of a head as those that were seen are: with further fields after a start
/// line, else with further line ends. Those that were seen are not looked at again.
pub(crate) fn go_on(lines: &[u8], headers: &mut [HeaderSpan], seen: Seen) -> bool
    requires within { seen.lines ≤ length lines.now }
    requires short { length lines.now ≤ max_head_len }
    requires room { max_fields ≤ length headers.old }
    requires whole { (drop seen.lines lines.now ≡ []) ⊎ EndsLine (drop seen.lines lines.now) }
    requires known { AreFirstLines seen.started (take seen.lines lines.now) }
    ensures kept { length headers.new ≡ length headers.old }
    ensures exact { IsTrue result ↔ AreFirstLines seen.started lines.now }
{
    if seen.started {
        match parse_headers_from(lines, seen.lines, headers) {
            Ok(Status::Partial) => true,
            Ok(Status::Complete(_)) => false,
            Err(_) => false,
        }
    } else {
        are_line_ends(&lines[seen.lines..])
    }
}
