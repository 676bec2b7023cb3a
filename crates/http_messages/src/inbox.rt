//! The machine of a connection, which reads and writes no socket: it takes bytes that came, and answers the messages among
//! them that are whole.

ghost use Rattle.std.specs.Prelude.{◌≡◌, ◌+◌, ◌≤◌, ◌++◌, List, [], length, take, drop, true, IfOk};
ghost use Rattle.money.specs.Counted.{stream_of};
ghost use Rattle.http_messages.specs.Failures.{CountsByAnswer};
ghost use Rattle.http_messages.specs.Next.{IsNext};
ghost use Rattle.http_messages.specs.Inbox.{max_message_len};
ghost use Rattle.http_messages.specs.Step.{IsStep};

use crate::engine::{AnswerFault, Engine};
use crate::looking::{Awaited, Next, look};
use crate::message::Message;
use crate::step::{Step, refuse};
use http_heads::{Head, MAX_BODY_LEN, MAX_FIELDS, MAX_HEAD_LEN, Seen};
use httparse::spans::{EMPTY_HEADER_SPAN, HeaderSpan};
use money::Tallied;
use std::alloc::{AllocError, Global};
use std::io::Write;
use std::marker::Model;

/// As many bytes as the longest message has.
pub(crate) const MAX_MESSAGE_LEN: usize = MAX_HEAD_LEN + MAX_BODY_LEN;

/// Writes bytes into a room after those that are held.
fn append(room: &mut [u8], held: usize, bytes: &[u8])
    requires { held + length bytes.now ≤ length room.old }
    ensures { take (held + length bytes.now) room.new ≡ take held room.old ++ bytes.now }
{
    room[held..held + bytes.len()].copy_from_slice(bytes);
}

/// The bytes that came of a connection and are not answered yet, in a room of one message, and what was found of them.
#[derive(Drop)]
pub struct Inbox {
    bytes: Vec<u8>,
    len: usize,
    awaited: Awaited,
}

impl Model for Inbox {
    ghost use Rattle.std.specs.Prelude.{◌≡◌, ◌≤◌, ℕ, List, length, take};
    ghost use Rattle.http_messages.specs.Next.{IsAwaited};
    ghost use Rattle.http_messages.specs.Inbox.{max_message_len};

    ghost Value = { List ℕ };

    ghost view = { λ i. take i.len i.bytes.items };

    ghost invariant = { λ i. (i.len ≤ max_message_len) × (length i.bytes.items ≡ max_message_len) × IsAwaited (take i.len i.bytes.items) i.awaited };
}

impl Inbox {
    /// Nothing yet. An error comes where memory was refused.
    pub fn new(alloc: Global) -> Result<Inbox, AllocError>
        ensures { IfOk result (λ inbox. inbox ≡ []) }
    {
        let bytes = vec![in alloc; 0u8; MAX_MESSAGE_LEN]?;
        Ok(Inbox {
            bytes,
            len: 0,
            awaited: Awaited::Head(Seen::nothing()),
        })
    }

    /// Whether it holds no byte.
    pub fn is_empty(&self) -> bool
        ensures { result ≡ true → self.now ≡ [] }
    {
        self.len == 0
    }

    /// How many bytes more it takes.
    pub fn room(&self) -> usize
        ensures { result + length self.now ≡ max_message_len }
    {
        MAX_MESSAGE_LEN - self.len
    }

    /// Takes bytes that came.
    pub fn take(&mut self, bytes: &[u8])
        requires { length self.old + length bytes.now ≤ max_message_len }
        ensures { self.new ≡ self.old ++ bytes.now }
    {
        append(self.bytes.as_mut_slice(), self.len, bytes);
        self.len += bytes.len();
    }

    /// The bytes.
    pub fn bytes(&self) -> &[u8]
        ensures { result.now ≡ self.now }
    {
        &self.bytes[..self.len]
    }

    /// What the bytes begin with. What is found of a message that has come in part is kept, so that a later look goes on
    /// from there: a message takes time by its length, in however many pieces it comes. No contract says so.
    fn look(&mut self, fields: &mut FieldRoom) -> Next
        ensures next { IsNext self.old fields.new result }
        ensures bounded { length self.new ≤ max_message_len }
        ensures kept { self.new ≡ self.old }
    {
        look(
            &self.bytes[..self.len],
            fields.spans.as_mut_slice(),
            &mut self.awaited,
        )
    }

    /// Has an engine answer the first message that is held, where it has come whole, and refuses what begins none.
    pub fn advance<E: Engine, W: Write>(
        &mut self,
        fields: &mut FieldRoom,
        engine: &mut E,
        writer: &mut Tallied<W>,
    ) -> Result<Step, AnswerFault>
        ensures step { IsStep E.answers E.stops E.breaks
            (record { held = self.old; written = W.contents (stream_of writer.old); engine = engine.old })
            (record { held = self.new; written = W.contents (stream_of writer.new); engine = engine.new })
            result }
        ensures bounded { length self.new ≤ max_message_len }
        ensures failures { CountsByAnswer writer.old writer.new result }
    {
        match self.look(fields) {
            Next::Message(spans, body_len) => {
                let bytes = self.bytes();
                let end = spans.len + body_len;
                let head = Head::new(bytes, fields.spans(), &spans);
                let message = Message::new(head, &bytes[spans.len..end]);
                let closes = message.closes();
                match engine.answer(&message, writer) {
                    Ok(()) => {
                        self.drop_front(end);
                        if closes {
                            Ok(Step::Closed)
                        } else {
                            Ok(Step::Answered)
                        }
                    }
                    Err(fault) => Err(fault),
                }
            }
            Next::FaultyHead(spans, fault) => {
                let head = Head::new(self.bytes(), fields.spans(), &spans);
                refuse(writer, fault, head.framing().head_only)
            }
            Next::NoHead(fault) => refuse(writer, fault, false),
            Next::Partial => Ok(Step::Waiting),
        }
    }

    /// Drops the first bytes.
    fn drop_front(&mut self, n: usize)
        requires { n ≤ length self.old }
        ensures { self.new ≡ drop n self.old }
    {
        self.bytes.copy_within(n..self.len, 0);
        self.len -= n;
        self.awaited = Awaited::Head(Seen::nothing());
    }
}

/// Room for the places of a head's fields. Nothing in it is kept between steps, and connections share it.
#[derive(Drop)]
pub struct FieldRoom {
    spans: Vec<HeaderSpan>,
}

impl Model for FieldRoom {
    ghost use Rattle.std.specs.Prelude.{◌≤◌, List, length};
    ghost use Rattle.httparse.specs.declared.spans.HeaderSpan.{HeaderSpan};
    ghost use Rattle.http_heads.specs.Stream.{max_fields};

    ghost Value = { List HeaderSpan };

    ghost view = { λ r. r.spans.items };

    ghost invariant = { λ r. max_fields ≤ length r.spans.items };
}

impl FieldRoom {
    /// As much as the longest head needs. An error comes where memory was refused.
    pub fn new(alloc: Global) -> Result<FieldRoom, AllocError> {
        let spans = vec![in alloc; EMPTY_HEADER_SPAN; MAX_FIELDS]?;
        Ok(FieldRoom { spans })
    }

    /// The places that were found last.
    fn spans(&self) -> &[HeaderSpan]
        ensures { result.now ≡ self.now }
    {
        self.spans.as_slice()
    }
}
