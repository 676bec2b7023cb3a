//! A whole message as an engine is handed it, and how the reply to it is written.

ghost use Rattle.std.specs.Prelude.{◌≡◌, OnOk, OnErr};
ghost use Rattle.std.specs.Io.KnownBytes.{Appends};
ghost use Rattle.money.specs.Counted.{stream_of, AppendsBeginning};
ghost use Rattle.http_heads.specs.Fields.{values_named};
ghost use Rattle.http_heads.specs.Found.{IsFound};
ghost use Rattle.http_heads.specs.Framing.{closes, asks_head};
ghost use Rattle.http_messages.specs.Failures.{CountsByCall};
ghost use Rattle.http_messages.specs.Reply.{head_bytes, reply_bytes};

use crate::reply::{write_head, write_reply};
use http::StatusCode;
use http_heads::{Found, Head};
use money::{Tallied, WriteStopped};
use std::io::Write;
use std::marker::Model;

/// A message whose whole body was read: what an engine is handed. A contract sees its parts.
#[derive(Drop)]
pub struct Message<'b> {
    head: Head<'b>,
    body: &'b [u8],
}

impl<'b> Model for Message<'b> {
    ghost use Rattle.http_messages.specs.Parts.{MessageParts};

    ghost Value = { MessageParts };

    ghost view = { λ m. record { head = m.head; body = m.body.now } };
}

impl<'b> Message<'b> {
    /// A head, and the body that follows it.
    pub(crate) fn new(head: Head<'b>, body: &'b [u8]) -> Message<'b>
        ensures { result ≡ record { head = head.entry; body = body.now } }
    {
        Message { head, body }
    }

    /// The method, such as `GET`, in the letter case that it has.
    pub fn method(&self) -> &'b [u8]
        ensures { result.now ≡ self.now.head.method }
    {
        self.head.method()
    }

    /// The request target, such as `/policy`.
    pub fn target(&self) -> &'b [u8]
        ensures { result.now ≡ self.now.head.target }
    {
        self.head.target()
    }

    /// The value of the field with this name, which is looked for without letter case.
    pub fn field(&self, name: &[u8]) -> Found<'b>
        ensures { IsFound (values_named name.now self.now.head.fields) result }
    {
        self.head.field(name)
    }

    /// The body, which is empty where the head states none.
    pub fn body(&self) -> &'b [u8]
        ensures { result.now ≡ self.now.body }
    {
        self.body
    }

    /// Whether the connection ends after the reply.
    pub fn closes(&self) -> bool
        ensures { result ≡ closes self.now.head }
    {
        self.head.closes()
    }

    /// Whether the method is HEAD: then the reply has no body bytes.
    pub fn asks_head(&self) -> bool
        ensures { result ≡ asks_head self.now.head }
    {
        self.head.framing().head_only
    }

    /// Writes the head of a reply to this message, whose body has this length: with `Connection: close` where the
    /// connection ends after it. The body follows it, where the method is not HEAD. It takes no memory. After an
    /// error a beginning of it was written.
    pub fn reply_head<W: Write>(
        &self,
        writer: &mut Tallied<W>,
        status: StatusCode,
        content_type: &str,
        len: u64,
    ) -> Result<(), WriteStopped>
        ensures whole { OnOk result (Appends (W.contents (stream_of writer.old)) (W.contents (stream_of writer.new)) (head_bytes status content_type.now len (closes self.now.head))) }
        ensures beginning { OnErr result (AppendsBeginning (W.contents (stream_of writer.old)) (W.contents (stream_of writer.new)) (head_bytes status content_type.now len (closes self.now.head))) }
        ensures failures { CountsByCall writer.old writer.new result }
    {
        write_head(writer, status, content_type, len, self.closes())
    }

    /// Writes the reply to this message: with `Connection: close` where the connection ends after it, and with no body
    /// bytes where the method is HEAD. It takes no memory. After an error a beginning of it was written.
    pub fn reply<W: Write>(
        &self,
        writer: &mut Tallied<W>,
        status: StatusCode,
        content_type: &str,
        body: &[u8],
    ) -> Result<(), WriteStopped>
        ensures whole { OnOk result (Appends (W.contents (stream_of writer.old)) (W.contents (stream_of writer.new)) (reply_bytes status content_type.now body.now (closes self.now.head) (asks_head self.now.head))) }
        ensures beginning { OnErr result (AppendsBeginning (W.contents (stream_of writer.old)) (W.contents (stream_of writer.new)) (reply_bytes status content_type.now body.now (closes self.now.head) (asks_head self.now.head))) }
        ensures failures { CountsByCall writer.old writer.new result }
    {
        write_reply(writer, status, content_type, body, self.head.framing())
    }
}
