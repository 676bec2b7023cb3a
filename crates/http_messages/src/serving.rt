//! The loop that reads the messages of a stream and has each of them answered.

ghost use Rattle.std.specs.Prelude.{◌≡◌, ◌≤◌, ◌<◌, ℕ, List, length, nat_lt, true, false, IfOk, IfErr, Ok, Err};
ghost use Rattle.std.specs.Io.KnownBytes.{Keeps, IsAtEnd};
ghost use Rattle.money.specs.Counted.{stream_of};
ghost use Rattle.http_messages.specs.Exit.{IsExit};
ghost use Rattle.http_messages.specs.Failures.{CountsByEnd, CountsByExit, CountsByCall};
ghost use Rattle.http_messages.specs.Inbox.{Takes, max_message_len};
ghost use Rattle.http_messages.specs.Run.{IsServed};
ghost use Rattle.http_messages.specs.Turn.{IsTurn};

use crate::engine::{AnswerFault, Engine};
use crate::inbox::{FieldRoom, Inbox, MAX_MESSAGE_LEN};
use crate::step::Step;
use http_heads::are_line_ends;
use money::Tallied;
use std::alloc::{AllocError, Global};
use std::io::{Read, Write};
use thiserror::Error;

/// What a call of `serve_messages` did.
#[derive(Clone, Copy, Debug, PartialEq, Eq)]
pub struct Served {
    /// How many replies it gave, those to M1 to M4 included.
    pub messages: u32,
}

/// Why a call of `serve_messages` stopped before its end.
#[derive(Clone, Copy, Debug, PartialEq, Eq, Error)]
pub enum ServeFault {
    /// A read failed. What was answered before stands.
    #[error("the reader failed")]
    Read,
    /// A write or a flush failed. What was answered before stands, the message answered last too.
    #[error("the writer failed")]
    Write,
    /// The input ended inside a message, which was not acted on.
    #[error("the input ended inside a message")]
    Cut,
    /// Memory was refused at the start. Nothing was read.
    #[error("out of memory")]
    Memory,
    /// A report broke after its head was written.
    #[error("a report broke")]
    Report,
}

impl From<AllocError> for ServeFault {
    ghost use Rattle.http_messages.specs.declared.serving.ServeFault.TheVariants.{Memory};

    ghost from_gives = { λ _ fault. fault ≡ Memory };

    fn from(_refused: AllocError) -> ServeFault {
        ServeFault::Memory
    }
}

impl From<AnswerFault> for ServeFault {
    ghost use Rattle.std.specs.Prelude.{◌≡◌};
    ghost use Rattle.http_messages.specs.Turn.{fault_of};

    ghost from_gives = { λ stopped fault. fault ≡ fault_of stopped };

    fn from(stopped: AnswerFault) -> ServeFault {
        match stopped {
            AnswerFault::Write => ServeFault::Write,
            AnswerFault::Report => ServeFault::Report,
        }
    }
}

/// What a call keeps from one message to the next.
#[derive(Drop)]
struct Exchange {
    inbox: Inbox,
    fields: FieldRoom,
    /// Whether something was written since the writer was flushed last.
    unflushed: bool,
}

/// Flushes the writer where something was written since it was flushed last.
fn flush_written<W: Write>(writer: &mut Tallied<W>, unflushed: &mut bool) -> Result<(), ServeFault>
    ensures err { IfErr result (λ fault. (fault ≡ ServeFault.Write) × (unflushed.old ≡ true)) }
    ensures spent { unflushed.new ≡ false }
    ensures kept { Keeps (W.contents (stream_of writer.old)) (W.contents (stream_of writer.new)) }
    ensures failures { CountsByCall writer.old writer.new result }
{
    if !*unflushed {
        return Ok(());
    }
    *unflushed = false;
    match writer.flush() {
        Ok(()) => Ok(()),
        Err(_) => Err(ServeFault::Write),
    }
}

/// Reads once into the room that is left, and returns whether any byte came.
fn read_more<R: Read>(reader: &mut Tallied<R>, inbox: &mut Inbox) -> Result<bool, ServeFault>
    requires { length inbox.old < max_message_len }
    ensures ok { IfOk result (λ any. (more : List ℕ)
        × Takes (R.remaining (stream_of reader.old)) (R.remaining (stream_of reader.new)) inbox.old inbox.new more
        × (any ≡ nat_lt 0 (length more))) }
    ensures bounded { length inbox.new ≤ max_message_len }
    ensures end { result ≡ Ok false → IsAtEnd (R.remaining (stream_of reader.new)) }
    ensures err { IfErr result (λ fault. (fault ≡ ServeFault.Read)
        × Keeps (R.remaining (stream_of reader.old)) (R.remaining (stream_of reader.new)) × (inbox.new ≡ inbox.old)) }
    ensures failures { CountsByCall reader.old reader.new result }
{
    let mut bytes = [0u8; MAX_MESSAGE_LEN];
    match reader.read(&mut bytes[..inbox.room()]) {
        Ok(n) => {
            inbox.take(&bytes[..n]);
            Ok(n > 0)
        }
        Err(_) => Err(ServeFault::Read),
    }
}

/// Reads until a step has answered a message, or the input ends: `Waiting` where it ended between two messages. Before
/// each read the writer is flushed.
fn serve_one<E: Engine, R: Read, W: Write>(
    engine: &mut E,
    reader: &mut Tallied<R>,
    writer: &mut Tallied<W>,
    exchange: &mut Exchange,
) -> Result<Step, ServeFault>
    ensures turn { IsTurn E.answers E.stops E.breaks
        (record { left = R.remaining (stream_of reader.old); held = exchange.old.inbox; written = W.contents (stream_of writer.old); unflushed = exchange.old.unflushed; engine = engine.old })
        (record { left = R.remaining (stream_of reader.new); held = exchange.new.inbox; written = W.contents (stream_of writer.new); unflushed = exchange.new.unflushed; engine = engine.new })
        result }
    ensures failures { CountsByEnd reader.old reader.new writer.old writer.new result }
{
    loop {
        match exchange.inbox.advance(&mut exchange.fields, engine, writer) {
            Ok(Step::Waiting) => {}
            Ok(Step::Answered) => {
                exchange.unflushed = true;
                return Ok(Step::Answered);
            }
            Ok(Step::Closed) => {
                exchange.unflushed = true;
                return Ok(Step::Closed);
            }
            Err(fault) => {
                exchange.unflushed = true;
                return Err(fault.into());
            }
        }
        flush_written(writer, &mut exchange.unflushed)?;
        if !read_more(reader, &mut exchange.inbox)? {
            return if are_line_ends(exchange.inbox.bytes()) {
                Ok(Step::Waiting)
            } else {
                Err(ServeFault::Cut)
            };
        }
    }
}

/// Answers the messages of a stream one after another, and returns how many replies it gave.
fn serve_in<E: Engine, R: Read, W: Write>(
    engine: &mut E,
    reader: &mut Tallied<R>,
    writer: &mut Tallied<W>,
    exchange: &mut Exchange,
    most: u32,
) -> Result<Served, ServeFault>
    requires flushed { exchange.old.unflushed ≡ false }
    requires bounded { length exchange.old.inbox ≤ max_message_len }
    ensures served { IsServed E.answers E.stops E.breaks most
        (record { left = R.remaining (stream_of reader.old); held = exchange.old.inbox; written = W.contents (stream_of writer.old); unflushed = exchange.old.unflushed; engine = engine.old })
        (record { left = R.remaining (stream_of reader.new); held = exchange.new.inbox; written = W.contents (stream_of writer.new); unflushed = exchange.new.unflushed; engine = engine.new })
        result }
    ensures most { IfOk result (λ served. served.messages ≤ most) }
    ensures failures { CountsByEnd reader.old reader.new writer.old writer.new result }
{
    for done in 0..most {
        match serve_one(engine, reader, writer, exchange) {
            Ok(Step::Answered) => {}
            Ok(Step::Closed) => return Ok(Served { messages: done + 1 }),
            Ok(Step::Waiting) => return Ok(Served { messages: done }),
            Err(fault) => return Err(fault),
        }
    }
    Ok(Served { messages: most })
}

/// Flushes where a call ends without an error, and answers its end: a flush that fails makes it a failed write.
fn flush_last<W: Write>(
    writer: &mut Tallied<W>,
    unflushed: &mut bool,
    served: Served,
) -> Result<Served, ServeFault>
    ensures ok { IfOk result (λ end. end ≡ served) }
    ensures err { IfErr result (λ fault. (fault ≡ ServeFault.Write) × (unflushed.old ≡ true)) }
    ensures spent { unflushed.new ≡ false }
    ensures kept { Keeps (W.contents (stream_of writer.old)) (W.contents (stream_of writer.new)) }
    ensures failures { CountsByCall writer.old writer.new result }
{
    flush_written(writer, unflushed)?;
    Ok(served)
}

/// Answers the messages of a stream one after another: until the input ends between two of them, after a reply that ends
/// the connection, or after `most` replies. With `most` 0 nothing is read. A message is acted on once its whole body was
/// read. What a message and its reply take is one room of fixed size, which is allocated first. The writer is flushed
/// before each read and at the end, where something was written since it was flushed last. A flush that fails is a
/// failed write; one that fails at the end takes the place of an `Ok`, and of no other fault.
///
/// In however many pieces a message comes, it is read in time by its length. No contract says so.
pub fn serve_messages<E: Engine, R: Read, W: Write>(
    alloc: Global,
    engine: &mut E,
    reader: &mut Tallied<R>,
    writer: &mut Tallied<W>,
    most: u32,
) -> Result<Served, ServeFault>
    ensures exit { IsExit E.answers E.stops E.breaks most
        (record { left = R.remaining (stream_of reader.old); written = W.contents (stream_of writer.old); engine = engine.old })
        (record { left = R.remaining (stream_of reader.new); written = W.contents (stream_of writer.new); engine = engine.new })
        result }
    ensures memory { result ≡ Err ServeFault.Memory → (reader.new ≡ reader.old) × (writer.new ≡ writer.old) }
    ensures most { IfOk result (λ served. served.messages ≤ most) }
    ensures failures { CountsByExit reader.old reader.new writer.old writer.new result }
{
    let inbox = Inbox::new(alloc)?;
    let fields = FieldRoom::new(alloc)?;
    let mut exchange = Exchange {
        inbox,
        fields,
        unflushed: false,
    };
    let end = serve_in(engine, reader, writer, &mut exchange, most);
    match end {
        Ok(served) => flush_last(writer, &mut exchange.unflushed, served),
        Err(ServeFault::Report) => {
            // What went out of the broken reply is passed on. The call ends the same where that fails.
            let _ = flush_written(writer, &mut exchange.unflushed);
            Err(ServeFault::Report)
        }
        Err(fault) => Err(fault),
    }
}
