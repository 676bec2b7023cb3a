//! A stream with a record of all that was read of it and written to it, which proofs alone read.

ghost use Rattle.std.specs.Prelude.{◌≡◌, ◌≢◌, ◌<◌, [], length, Some, IfErr, IfOk, true};
ghost use Rattle.std.specs.Io.{ReadsAtMost, WritesAtMost};
ghost use Rattle.std.specs.Io.KnownBytes.{ReadConsumes, WriteAppends};
ghost use Rattle.std.specs.IoError.{error_kind};
ghost use Rattle.counter_door.specs.Calls.{IsAfterRead, IsAfterWrite};
ghost use Rattle.counter_door.specs.Past.{no_past};
ghost use Rattle.counter_door.specs.Ways.{IsAsked, IsEnded, IsReadBy, IsWrittenBy, Moves};

use crate::calls::Calls;
use crate::door::TwoWay;
use crate::sockets::Socket;
use mio::{Interest, Registry, Token};
use std::io;
use std::io::ErrorKind;

/// A stream, of which proofs know all that was read of it and written to it since it began, and how its last read and its last
/// write ended. Nothing of that is kept as the program runs.
#[derive(Drop)]
pub struct Recorded<T> {
    stream: T,
    calls: Calls,
}

impl<T> Recorded<T> {
    /// A stream that begins.
    pub fn new(stream: T) -> Recorded<T>
        ensures stream { result.stream ≡ stream }
        ensures past { result.calls.past ≡ no_past }
    {
        Recorded {
            stream,
            calls: Calls::new(),
        }
    }
}

impl<T: Socket> TwoWay for Recorded<T> {
    ghost use Rattle.std.specs.Prelude.{◌≡◌, true};
    ghost use Rattle.counter_door.specs.Past.{HasFailed, IsFull, past_ways};

    ghost ways = { λ s. past_ways s.calls.past };

    ghost used_up = { λ s. s.calls.past.is_used_up ≡ true };

    ghost full = { λ s. IsFull s.calls.past };

    ghost failed = { λ s. HasFailed s.calls.past };

    fn register(&mut self, registry: &Registry, key: usize) -> io::Result<()>
        ensures past { self.new.calls.past ≡ self.old.calls.past }
        ensures stream { (T.remaining self.new.stream ≡ T.remaining self.old.stream) × (T.contents self.new.stream ≡ T.contents self.old.stream) }
    {
        let as_store_and_clock = Interest::READABLE | Interest::WRITABLE;
        registry.register(&mut self.stream, Token(key), as_store_and_clock)
    }

    fn receive(&mut self, buf: &mut [u8]) -> io::Result<usize>
        ensures bound { ReadsAtMost result buf.new }
        ensures bytes { IsReadBy (Some self.old.calls.past.ways) (Some self.new.calls.past.ways) result buf.new }
        ensures used_up { IfErr result (λ e. error_kind e ≡ ErrorKind.WouldBlock → self.new.calls.past.is_used_up ≡ true) }
        ensures broken { IfErr result (λ e. error_kind e ≢ ErrorKind.WouldBlock → IsEnded (Some self.new.calls.past.ways)) }
        ensures ended { IfOk result (λ n. n ≡ 0 → 0 < length buf.new → IsEnded (Some self.new.calls.past.ways)) }
        ensures past { IsAfterRead self.old.calls.past self.new.calls.past result buf.new }
        ensures stream { ReadConsumes (T.remaining self.old.stream) (T.remaining self.new.stream) result buf.new }
    {
        let done = self.stream.read(buf);
        self.calls = self.calls.and_read(&done, buf);
        done
    }

    fn give(&mut self, buf: &[u8]) -> io::Result<usize>
        ensures bound { WritesAtMost result buf.now }
        ensures bytes { IsWrittenBy (Some self.old.calls.past.ways) (Some self.new.calls.past.ways) result buf.now }
        ensures full { IfErr result (λ e. error_kind e ≡ ErrorKind.WouldBlock → self.new.calls.past.is_full ≡ true) }
        ensures failed { IfErr result (λ e. error_kind e ≢ ErrorKind.WouldBlock → self.new.calls.past.has_failed ≡ true) }
        ensures asked { IsAsked (Some self.old.calls.past.ways) (Some self.new.calls.past.ways) }
        ensures ended { IfOk result (λ n. n ≡ 0 → 0 < length buf.now → self.new.calls.past.has_failed ≡ true) }
        ensures used_up { self.old.calls.past.is_used_up ≡ true → self.new.calls.past.is_used_up ≡ true }
        ensures past { IsAfterWrite self.old.calls.past self.new.calls.past result buf.now }
        ensures stream { WriteAppends (T.contents self.old.stream) (T.contents self.new.stream) result buf.now }
    {
        let done = self.stream.write(buf);
        self.calls = self.calls.and_write(&done, buf);
        done
    }

    fn end_writing(&self) {
        self.stream.end_writing();
    }

    fn end_reading(&self) {
        self.stream.end_reading();
    }
}
