//! One connection over a reader and a writer that wait.

ghost use Rattle.std.specs.Prelude.{◌≡◌, ◌++◌, ◌<◌, ◌≤◌, ℕ, List, [], Ok, length, false, true, IfOk, IfErr, OnOk};
ghost use Rattle.std.specs.Io.KnownBytes.{Appends, Consumes, IsAtEnd};
ghost use Rattle.money.specs.Counted.{stream_of};
ghost use Rattle.http_messages.specs.Failures.{CountsByCall, CountsByEnd, CountsByExit};
ghost use Rattle.http_messages.specs.Inbox.{max_message_len};
ghost use Rattle.http_messages.specs.Run.{IsServed};
ghost use Rattle.http_messages.specs.Turn.{IsTurn};
ghost use Rattle.http_connection.specs.Parts.{after_received, opened};
ghost use Rattle.http_connection.specs.History.{with_unsent};
ghost use Rattle.http_connection.specs.Serving.{IsServedSo, at, is_some_left, row_of};

use crate::connection::Connection;
use http_messages::{AnswerFault, Engine, FieldRoom, ServeFault, Served, Step};
use money::Tallied;
use std::alloc::Global;
use std::io;
use std::io::{ErrorKind, Read, Write};

/// How many bytes are read at once.
const READ_AT_ONCE: usize = 4_096;

/// If at least this many bytes wait to go out, they are written before the next message is answered.
const MUCH: usize = 65_536;

/// Writes what is to go out, and flushes the writer.
fn write_out<W: Write>(connection: &mut Connection, writer: &mut Tallied<W>) -> io::Result<()>
    ensures went { (out : List ℕ) × (connection.old.unsent ≡ out ++ connection.new.unsent) × (connection.new ≡ with_unsent connection.new.unsent connection.old)
        × Appends (W.contents (stream_of writer.old)) (W.contents (stream_of writer.new)) out }
    ensures all { OnOk result (connection.new.unsent ≡ []) }
    ensures failures { CountsByCall writer.old writer.new result }
{
    while !connection.unsent().is_empty() {
        let n = writer.write(connection.unsent())?;
        if n == 0 {
            return Err(ErrorKind::WriteZero.into());
        }
        connection.sent(n);
    }
    writer.flush()
}

/// The same, if something is to go out.
fn send<W: Write>(connection: &mut Connection, writer: &mut Tallied<W>) -> Result<(), ServeFault>
    ensures went { (out : List ℕ) × (connection.old.unsent ≡ out ++ connection.new.unsent) × (connection.new ≡ with_unsent connection.new.unsent connection.old)
        × Appends (W.contents (stream_of writer.old)) (W.contents (stream_of writer.new)) out }
    ensures all { OnOk result (connection.new.unsent ≡ []) }
    ensures err { IfErr result (λ fault. (fault ≡ ServeFault.Write) × (is_some_left connection.old.unsent ≡ true)) }
    ensures failures { CountsByCall writer.old writer.new result }
{
    if connection.unsent().is_empty() {
        return Ok(());
    }
    match write_out(connection, writer) {
        Ok(()) => Ok(()),
        Err(_) => Err(ServeFault::Write),
    }
}

/// The same, if much is to go out.
fn send_much<W: Write>(
    connection: &mut Connection,
    writer: &mut Tallied<W>,
) -> Result<(), ServeFault>
    ensures went { (out : List ℕ) × (connection.old.unsent ≡ out ++ connection.new.unsent) × (connection.new ≡ with_unsent connection.new.unsent connection.old)
        × Appends (W.contents (stream_of writer.old)) (W.contents (stream_of writer.new)) out }
    ensures err { IfErr result (λ fault. (fault ≡ ServeFault.Write) × (is_some_left connection.old.unsent ≡ true)) }
    ensures failures { CountsByCall writer.old writer.new result }
{
    if connection.unsent().len() < MUCH {
        return Ok(());
    }
    send(connection, writer)
}

/// Reads once, and returns whether any byte came.
fn read_in<R: Read>(
    connection: &mut Connection,
    reader: &mut Tallied<R>,
) -> Result<bool, ServeFault>
    requires { length connection.old.held < max_message_len }
    ensures bytes { (bytes : List ℕ) × (connection.new ≡ after_received bytes connection.old) × Consumes (R.remaining (stream_of reader.old)) (R.remaining (stream_of reader.new)) bytes }
    ensures some { result ≡ Ok true → length connection.old.held < length connection.new.held }
    ensures bounded { length connection.new.held ≤ max_message_len }
    ensures end { result ≡ Ok false → (connection.new ≡ connection.old) × IsAtEnd (R.remaining (stream_of reader.new)) }
    ensures err { IfErr result (λ fault. (fault ≡ ServeFault.Read) × (connection.new ≡ connection.old)) }
    ensures failures { CountsByCall reader.old reader.new result }
{
    let mut room = [0u8; READ_AT_ONCE];
    let most = connection.room().min(READ_AT_ONCE);
    match reader.read(&mut room[..most]) {
        Ok(n) => {
            if n == 0 {
                return Ok(false);
            }
            connection.receive(&room[..n]);
            Ok(true)
        }
        Err(_) => Err(ServeFault::Read),
    }
}

/// Reads until a step has answered a message, or the input ends: `Waiting` if it ended between two messages. Before each read all
/// that is to go out is written, and much of it before the first step. `Memory` says that it was refused for a reply.
fn serve_one<E: Engine, R: Read, W: Write>(
    connection: &mut Connection,
    engine: &mut E,
    fields: &mut FieldRoom,
    reader: &mut Tallied<R>,
    writer: &mut Tallied<W>,
) -> Result<Step, ServeFault>
    requires open { connection.old.is_closing ≡ false }
    requires bounded { length connection.old.held ≤ max_message_len }
    ensures turn { IsTurn E.answers E.stops E.breaks
        (at (R.remaining (stream_of reader.old)) connection.old (W.contents (stream_of writer.old)) engine.old)
        (at (R.remaining (stream_of reader.new)) connection.new (W.contents (stream_of writer.new)) engine.new)
        (row_of result) }
    ensures open { result ≡ Ok Step.Answered → connection.new.is_closing ≡ false }
    ensures failures { CountsByEnd reader.old reader.new writer.old writer.new result }
{
    send_much(connection, writer)?;
    loop {
        match connection.step(engine, fields) {
            Ok(Step::Waiting) => {}
            Ok(Step::Answered) => return Ok(Step::Answered),
            Ok(Step::Closed) => return Ok(Step::Closed),
            Err(AnswerFault::Write) => return Err(ServeFault::Memory),
            Err(AnswerFault::Report) => return Err(ServeFault::Report),
        }
        send(connection, writer)?;
        if !read_in(connection, reader)? {
            return if connection.holds_line_ends() {
                Ok(Step::Waiting)
            } else {
                Err(ServeFault::Cut)
            };
        }
    }
}

/// Answers the messages of a stream one after another, and returns how many replies it gave. Of the last ones some may still be to
/// go out.
fn serve_in<E: Engine, R: Read, W: Write>(
    connection: &mut Connection,
    engine: &mut E,
    fields: &mut FieldRoom,
    reader: &mut Tallied<R>,
    writer: &mut Tallied<W>,
    most: u32,
) -> Result<Served, ServeFault>
    requires { connection.old ≡ opened }
    ensures served { IsServed E.answers E.stops E.breaks most
        (at (R.remaining (stream_of reader.old)) connection.old (W.contents (stream_of writer.old)) engine.old)
        (at (R.remaining (stream_of reader.new)) connection.new (W.contents (stream_of writer.new)) engine.new)
        (row_of result) }
    ensures most { IfOk result (λ served. served.messages ≤ most) }
    ensures failures { CountsByEnd reader.old reader.new writer.old writer.new result }
{
    for done in 0..most {
        match serve_one(connection, engine, fields, reader, writer) {
            Ok(Step::Answered) => {}
            Ok(Step::Closed) => return Ok(Served { messages: done + 1 }),
            Ok(Step::Waiting) => return Ok(Served { messages: done }),
            Err(fault) => return Err(fault),
        }
    }
    Ok(Served { messages: most })
}

/// Answers the messages of a stream one after another: until the input ends between two of them, after a reply that ends the
/// connection, or after `most` replies. With `most` 0 nothing is read. A message is acted on once its whole body was read. Replies
/// are gathered in memory, and written before more is read and at the end. Where memory is refused for one, a beginning of it is
/// written, and that ends the call. A call of the reader or of the writer that failed ends it, and is reported: an `Ok` says that
/// none did.
pub fn serve<E: Engine, R: Read, W: Write>(
    alloc: Global,
    engine: &mut E,
    reader: &mut Tallied<R>,
    writer: &mut Tallied<W>,
    most: u32,
) -> Result<Served, ServeFault>
    ensures exit { IsServedSo E.answers E.stops E.breaks most (R.remaining (stream_of reader.old)) (R.remaining (stream_of reader.new))
        (W.contents (stream_of writer.old)) (W.contents (stream_of writer.new)) engine.old engine.new result }
    ensures most { IfOk result (λ served. served.messages ≤ most) }
    ensures failures { CountsByExit reader.old reader.new writer.old writer.new result }
{
    let mut connection = Connection::new(alloc)?;
    let mut fields = FieldRoom::new(alloc)?;
    let end = serve_in(&mut connection, engine, &mut fields, reader, writer, most);
    match end {
        Ok(served) => match send(&mut connection, writer) {
            Ok(()) => Ok(served),
            Err(fault) => Err(fault),
        },
        Err(ServeFault::Memory) => match send(&mut connection, writer) {
            Ok(()) => Err(ServeFault::Memory),
            Err(fault) => Err(fault),
        },
        Err(ServeFault::Report) => {
            // What went out of the broken reply is passed on. The call ends the same where that fails.
            let _ = send(&mut connection, writer);
            Err(ServeFault::Report)
        }
        Err(ServeFault::Write) => Err(ServeFault::Write),
        // Before a read all has gone out.
        Err(ServeFault::Read) => Err(ServeFault::Read),
        Err(ServeFault::Cut) => Err(ServeFault::Cut),
    }
}
