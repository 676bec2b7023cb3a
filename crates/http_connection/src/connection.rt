//! A connection as one value: what came and was not answered, what is to go out, and whether it ends then.

ghost use Rattle.std.specs.Prelude.{◌≡◌, ◌↔◌, ◌+◌, ◌≤◌, [], length, false, true, IfOk, IsTrue};
ghost use Rattle.http_messages.specs.Blank.{AreLineEnds};
ghost use Rattle.http_messages.specs.Inbox.{max_message_len};
ghost use Rattle.http_messages.specs.Step.{IsStep};
ghost use Rattle.http_connection.specs.Connection.{IsAnswered, closes_by, progress_of, side_of};
ghost use Rattle.http_connection.specs.Parts.{after_received, after_sent, closed, opened};

use crate::outbox::{drop_front, new_outbox};
use crate::progress::{Progress, progress_of};
use http_heads::are_line_ends;
use http_messages::{AnswerFault, Engine, FieldRoom, Inbox, Step};
use money::Tallied;
use std::alloc::{AllocError, Global};
use std::marker::Model;
use std::mem;

/// A connection without its stream.
#[derive(Drop)]
pub struct Connection {
    inbox: Inbox,
    outbox: Vec<u8>,
    is_closing: bool,
}

impl Model for Connection {
    ghost use Rattle.http_connection.specs.Parts.{ConnectionParts};

    ghost Value = { ConnectionParts };

    ghost view = { λ c. record { held = c.inbox; unsent = c.outbox.items; is_closing = c.is_closing } };
}

impl Connection {
    /// One of which nothing came yet. An error comes where memory was refused.
    pub fn new(alloc: Global) -> Result<Connection, AllocError>
        ensures { IfOk result (λ c. c ≡ opened) }
    {
        let inbox = Inbox::new(alloc)?;
        let outbox = new_outbox(alloc)?;
        Ok(Connection {
            inbox,
            outbox,
            is_closing: false,
        })
    }

    /// How many bytes more it takes.
    pub fn room(&self) -> usize
        ensures { result + length self.now.held ≡ max_message_len }
    {
        self.inbox.room()
    }

    /// Takes bytes that came.
    pub fn receive(&mut self, bytes: &[u8])
        requires { length self.old.held + length bytes.now ≤ max_message_len }
        ensures { self.new ≡ after_received bytes.now self.old }
    {
        self.inbox.take(bytes);
    }

    /// Has an engine answer the first message that is held, if it has come whole, and refuses what begins none.
    pub fn answer<E: Engine>(&mut self, engine: &mut E, fields: &mut FieldRoom) -> Progress
        requires { self.old.is_closing ≡ false }
        ensures answered { IsAnswered E.answers E.stops E.breaks self.old engine.old self.new engine.new result }
        ensures bounded { length self.new.held ≤ max_message_len }
    {
        progress_of(self.step(engine, fields))
    }

    /// The same, and how the step ended.
    pub(crate) fn step<E: Engine>(
        &mut self,
        engine: &mut E,
        fields: &mut FieldRoom,
    ) -> Result<Step, AnswerFault>
        requires { self.old.is_closing ≡ false }
        ensures step { IsStep E.answers E.stops E.breaks (side_of self.old engine.old) (side_of self.new engine.new) result }
        ensures closing { self.new.is_closing ≡ closes_by (progress_of result) }
        ensures bounded { length self.new.held ≤ max_message_len }
    {
        let alloc = *self.outbox.allocator();
        let unsent = mem::replace(&mut self.outbox, Vec::new(alloc));
        let mut writer = Tallied::new(unsent);
        let step = self.inbox.advance(fields, engine, &mut writer);
        self.outbox = writer.into_inner();
        self.is_closing = progress_of(step).closes();
        step
    }

    /// Whether what is held is line ends alone, which begin no message.
    pub(crate) fn holds_line_ends(&self) -> bool
        ensures { IsTrue result ↔ AreLineEnds self.now.held }
    {
        are_line_ends(self.inbox.bytes())
    }

    /// What is to go out.
    pub fn unsent(&self) -> &[u8]
        ensures { result.now ≡ self.now.unsent }
    {
        self.outbox.as_slice()
    }

    /// So many bytes of that went out. If nothing is to go out then, little room is kept for the next replies.
    pub fn sent(&mut self, n: usize)
        requires { n ≤ length self.old.unsent }
        ensures { self.new ≡ after_sent n self.old }
    {
        drop_front(&mut self.outbox, n);
    }

    /// Whether nothing more is answered.
    pub fn is_closing(&self) -> bool
        ensures { result ≡ self.now.is_closing }
    {
        self.is_closing
    }

    /// Nothing more is answered: the input ended.
    pub fn close(&mut self)
        ensures { self.new ≡ closed self.old }
    {
        self.is_closing = true;
    }

    /// Whether nothing is under way: no message, and no reply.
    pub fn is_idle(&self) -> bool
        ensures { result ≡ true → (self.now.held ≡ []) × (self.now.unsent ≡ []) }
    {
        self.inbox.is_empty() && self.outbox.is_empty()
    }
}
