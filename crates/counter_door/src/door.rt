//! What the loop knows of connections, and of the door at which they are accepted.

ghost use Rattle.std.specs.Prelude.{◌≡◌, ◌≢◌, ◌<◌, ◌+◌, ℕ, Bool, [], length, MatchResult, Option, IfErr, IfOk, true};
ghost use Rattle.std.specs.Io.{ReadsAtMost, WritesAtMost};
ghost use Rattle.std.specs.IoError.{error_kind};
ghost use Rattle.counter_door.specs.Ways.{IsAsked, IsEnded, IsReadBy, IsWrittenBy, Moves, Ways, is_new};

use mio::Registry;
use std::io;
use std::io::ErrorKind;

/// A connection, of which bytes are read and to which bytes are written, by one value: what is read leaves what was written as it
/// is, and what is written leaves what is to be read. None of its calls waits.
pub trait TwoWay {
    /// What was read of it since it began, what was written to it, how often it was asked to take some, and whether its last read
    /// showed that no more comes, if it reports that.
    ghost ways: { Self → Option Ways };

    /// What one reports as it is accepted.
    ghost begins: { Option Ways → Bool } = { is_new };

    // Its last read answered that nothing more is at hand.
    ghost used_up: { Self → Type 0 };

    // Its last write answered that no more is taken.
    ghost full: { Self → Type 0 };

    // Its last write took nothing, for another reason.
    ghost failed: { Self → Type 0 };

    /// Has the system report under this key when it can be read or written.
    fn register(&mut self, registry: &Registry, key: usize) -> io::Result<()>
        ensures bytes { Moves (ways self.old) (ways self.new) [] [] }
        ensures full { full self.old → full self.new };

    /// Reads some of the bytes that have come, or answers an error where none has.
    fn receive(&mut self, buf: &mut [u8]) -> io::Result<usize>
        ensures bound { ReadsAtMost result buf.new }
        ensures bytes { IsReadBy (ways self.old) (ways self.new) result buf.new }
        ensures used_up { IfErr result (λ e. error_kind e ≡ ErrorKind.WouldBlock → used_up self.new) }
        ensures broken { IfErr result (λ e. error_kind e ≢ ErrorKind.WouldBlock → IsEnded (ways self.new)) }
        ensures ended { IfOk result (λ n. n ≡ 0 → 0 < length buf.new → IsEnded (ways self.new)) };

    /// Writes some of these bytes, or answers an error where the system takes none.
    fn give(&mut self, buf: &[u8]) -> io::Result<usize>
        ensures bound { WritesAtMost result buf.now }
        ensures bytes { IsWrittenBy (ways self.old) (ways self.new) result buf.now }
        ensures full { IfErr result (λ e. error_kind e ≡ ErrorKind.WouldBlock → full self.new) }
        ensures failed { IfErr result (λ e. error_kind e ≢ ErrorKind.WouldBlock → failed self.new) }
        ensures asked { IsAsked (ways self.old) (ways self.new) }
        ensures ended { IfOk result (λ n. n ≡ 0 → 0 < length buf.now → failed self.new) }
        ensures used_up { used_up self.old → used_up self.new };

    /// Says that nothing more is written. What the system does not take of that is passed over.
    fn end_writing(&self);

    /// Says that nothing more is read beyond what has come. What the system does not take of that is passed over.
    fn end_reading(&self);
}

/// Where connections are accepted.
pub trait Door {
    /// A connection.
    type Stream: TwoWay + Drop;

    /// How many connections it gave.
    ghost given: { Self → ℕ };

    /// The next connection, or an error where none waits.
    fn next(&mut self) -> io::Result<Self::Stream>
        ensures begun { IfOk result (λ stream. Self.Stream.begins (Self.Stream.ways stream) ≡ true) }
        ensures given { MatchResult result (λ _. given self.new ≡ given self.old + 1) (λ _. given self.new ≡ given self.old) };
}
