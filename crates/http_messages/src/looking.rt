//! What the bytes that were read begin with: a whole message, a part of one, or a fault.

ghost use Rattle.std.specs.Prelude.{◌≡◌, ◌≤◌, List, length};
ghost use Rattle.httparse.specs.declared.spans.HeaderSpan.{HeaderSpan};
ghost use Rattle.http_heads.specs.Framing.{max_body_len};
ghost use Rattle.http_heads.specs.Seen.{IsSeen};
ghost use Rattle.http_heads.specs.Stream.{max_fields, max_head_len};
ghost use Rattle.http_messages.specs.Next.{BeginsSound, IsAwaited, IsNext, IsThrough};

use http_heads::{Head, Judged, MessageFault, Seen, judge_from};
use httparse::spans::{HeaderSpan, RequestSpans};

/// What the bytes that were read begin with.
#[derive(Clone, Copy)]
pub(crate) enum Next {
    /// A whole message: its head, and how many bytes of body follow it.
    Message(RequestSpans, usize),
    /// A head with a fault.
    FaultyHead(RequestSpans, MessageFault),
    /// Bytes that begin no head, or none within the longest.
    NoHead(MessageFault),
    /// Less than a whole message.
    Partial,
}

/// What is awaited of a message that has come in part, and what was found of it.
#[derive(Clone, Copy)]
pub(crate) enum Awaited {
    /// A head. So far it was judged.
    Head(Seen),
    /// A body. The message has this number of bytes with its head, which has no fault.
    Body(usize),
}

/// What bytes begin with where this head begins them, and a body of this length follows it.
fn look_at_body(bytes: &[u8], awaited: &mut Awaited, spans: RequestSpans, body_len: usize) -> Next
    requires head { spans.len ≤ max_head_len }
    requires body { body_len ≤ max_body_len }
    requires known { IsAwaited bytes.now awaited.old }
    ensures next { (headers : List HeaderSpan) → BeginsSound bytes.now headers spans body_len → IsNext bytes.now headers result }
    ensures kept { (headers : List HeaderSpan) → BeginsSound bytes.now headers spans body_len → IsAwaited bytes.now awaited.new }
    ensures through { result ≡ Next.Partial → IsThrough bytes.now awaited.new }
{
    let whole = spans.len + body_len;
    if whole <= bytes.len() {
        Next::Message(spans, body_len)
    } else {
        *awaited = Awaited::Body(whole);
        Next::Partial
    }
}

/// What bytes begin with of which so much was judged.
fn look_from(
    bytes: &[u8],
    headers: &mut [HeaderSpan],
    awaited: &mut Awaited,
    mut seen: Seen,
) -> Next
    requires room { max_fields ≤ length headers.old }
    requires known { IsSeen bytes.now seen }
    ensures next { IsNext bytes.now headers.new result }
    ensures kept { IsAwaited bytes.now awaited.new }
    ensures through { result ≡ Next.Partial → IsThrough bytes.now awaited.new }
{
    let judged = judge_from(bytes, headers, &mut seen);
    *awaited = Awaited::Head(seen);
    match judged {
        Judged::Head(spans) => match Head::new(bytes, headers, &spans).body_len() {
            Ok(body_len) => look_at_body(bytes, awaited, spans, body_len),
            Err(fault) => Next::FaultyHead(spans, fault),
        },
        Judged::Malformed => Next::NoHead(MessageFault::BadHead),
        Judged::TooLong => Next::NoHead(MessageFault::HeadTooLong),
        Judged::Waiting => Next::Partial,
    }
}

/// What bytes begin with of which this is known; what is found of them is known after it. A head takes time by the bytes
/// that came since; where a body was awaited and is there, the head is read once more.
pub(crate) fn look(bytes: &[u8], headers: &mut [HeaderSpan], awaited: &mut Awaited) -> Next
    requires room { max_fields ≤ length headers.old }
    requires known { IsAwaited bytes.now awaited.old }
    ensures next { IsNext bytes.now headers.new result }
    ensures kept { IsAwaited bytes.now awaited.new }
    ensures through { result ≡ Next.Partial → IsThrough bytes.now awaited.new }
{
    match *awaited {
        Awaited::Body(whole) if bytes.len() < whole => Next::Partial,
        Awaited::Body(_) => look_from(bytes, headers, awaited, Seen::nothing()),
        Awaited::Head(seen) => look_from(bytes, headers, awaited, seen),
    }
}
