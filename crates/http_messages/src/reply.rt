//! The bytes of a reply, written from a status, a content type and a body, with no memory taken.

ghost use Rattle.std.specs.Prelude.{◌≡◌, [], if◌then◌else◌, OnOk, OnErr};
ghost use Rattle.std.specs.Io.KnownBytes.{Appends};
ghost use Rattle.money.specs.Counted.{stream_of, AppendsBeginning};
ghost use Rattle.http_messages.specs.Failures.{CountsByCall};
ghost use Rattle.http_messages.specs.Reply.{reply_texts, reply_bytes, head_bytes, phrase_of, connection_field};

use http::StatusCode;
use http_heads::Framing;
use itoa::Buffer;
use money::{Tallied, WriteStopped, write_parts};
use std::io::Write;

/// Writes a reply, and takes no memory. After an error a beginning of it was written.
pub fn write_reply<W: Write>(
    writer: &mut Tallied<W>,
    status: StatusCode,
    content_type: &str,
    body: &[u8],
    framing: Framing,
) -> Result<(), WriteStopped>
    ensures whole { OnOk result (Appends (W.contents (stream_of writer.old)) (W.contents (stream_of writer.new)) (reply_bytes status content_type.now body.now framing.close framing.head_only)) }
    ensures beginning { OnErr result (AppendsBeginning (W.contents (stream_of writer.old)) (W.contents (stream_of writer.new)) (reply_bytes status content_type.now body.now framing.close framing.head_only)) }
    ensures failures { CountsByCall writer.old writer.new result }
{
    let mut digits = Buffer::new();
    let len = digits.format(body.len());
    write_texts(
        writer,
        status.as_str().as_bytes(),
        phrase(status).as_bytes(),
        content_type.as_bytes(),
        len.as_bytes(),
        connection_field(framing.close),
        sent_body(body, framing.head_only),
    )
}

/// Writes the head of a reply whose body has this length, and takes no memory. After an error a beginning of it was
/// written.
pub(crate) fn write_head<W: Write>(
    writer: &mut Tallied<W>,
    status: StatusCode,
    content_type: &str,
    len: u64,
    close: bool,
) -> Result<(), WriteStopped>
    ensures whole { OnOk result (Appends (W.contents (stream_of writer.old)) (W.contents (stream_of writer.new)) (head_bytes status content_type.now len close)) }
    ensures beginning { OnErr result (AppendsBeginning (W.contents (stream_of writer.old)) (W.contents (stream_of writer.new)) (head_bytes status content_type.now len close)) }
    ensures failures { CountsByCall writer.old writer.new result }
{
    let mut digits = Buffer::new();
    let len = digits.format(len);
    write_texts(
        writer,
        status.as_str().as_bytes(),
        phrase(status).as_bytes(),
        content_type.as_bytes(),
        len.as_bytes(),
        connection_field(close),
        b"",
    )
}

/// The phrase of a status, or nothing.
fn phrase(status: StatusCode) -> &'static str
    ensures { result.now ≡ phrase_of status }
{
    status.canonical_reason().unwrap_or("")
}

/// The field that ends the connection, after the end of the line before it.
fn connection_field(close: bool) -> &'static [u8]
    ensures { result.now ≡ connection_field close }
{
    if close { b"\r\nConnection: close" } else { b"" }
}

/// The bytes of a body that are sent.
fn sent_body(body: &[u8], head_only: bool) -> &[u8]
    ensures { result.now ≡ (if head_only then [] else body.now) }
{
    if head_only { &body[..0] } else { body }
}

/// Writes a reply from its texts.
fn write_texts<'a, W: Write>(
    writer: &mut Tallied<W>,
    status: &'a [u8],
    phrase: &'a [u8],
    content_type: &'a [u8],
    len: &'a [u8],
    connection: &'a [u8],
    sent: &'a [u8],
) -> Result<(), WriteStopped>
    ensures whole { OnOk result (Appends (W.contents (stream_of writer.old)) (W.contents (stream_of writer.new)) (reply_texts status.now phrase.now content_type.now len.now connection.now sent.now)) }
    ensures beginning { OnErr result (AppendsBeginning (W.contents (stream_of writer.old)) (W.contents (stream_of writer.new)) (reply_texts status.now phrase.now content_type.now len.now connection.now sent.now)) }
    ensures failures { CountsByCall writer.old writer.new result }
{
    let version: &'a [u8] = b"HTTP/1.1 ";
    let space: &'a [u8] = b" ";
    let type_name: &'a [u8] = b"\r\nContent-Type: ";
    let len_name: &'a [u8] = b"\r\nContent-Length: ";
    let end: &'a [u8] = b"\r\n\r\n";
    write_parts(
        writer,
        &[
            version,
            status,
            space,
            phrase,
            type_name,
            content_type,
            len_name,
            len,
            connection,
            end,
            sent,
        ],
    )
}
